ghost use Rattle.std.specs.Prelude.{◌≡◌, ℕ, ◌+◌, ◌≤◌, ◌++◌, [], ◌∷◌, List, true, find, is_some, option_map, if◌then◌else◌, ◌<◌, ◌^◌, MatchOption, int_lt, unsigned_abs};
ghost use Rattle.std.specs.Option.{ForSome};
ghost use Rattle.offset_track.specs.InForce.{InForce, chosen, is_candidate, is_slow};
ghost use Rattle.offset_track.specs.Track.{StandsFor, with_exchange};
ghost use Rattle.pingpong.specs.Exchange.{Stamps, estimate2, round_trip};

use arrayvec::ArrayVec;
use ld_base::{Settings, Ticks};
use pingpong::Exchange;
use std::marker::Model;

/// What became of an exchange.
#[derive(Clone, Copy, Debug, PartialEq, Eq)]
pub enum Taken {
    /// It is kept as the newest.
    Kept,
    /// Its round trip is greater than the setting `slow`, and nothing changed.
    Slow,
}

/// The last eight exchanges with one peer that weren't slow.
#[derive(Drop)]
pub struct Track {
    slow: u32,
    age: u32,
    // The newest first, so that of equals the first is the newest.
    kept: ArrayVec<Exchange, 8>,
}

impl Model for Track {
    ghost use Rattle.offset_track.specs.Track.{Held};

    ghost Value = { Held };

    ghost view = { λ t. record { slow = t.slow; age = t.age; newest_first = t.kept.items } };
}

/// An exchange that was in force at a stamp. `Track::in_force` alone makes one.
#[derive(Clone, Copy, Debug, PartialEq, Eq)]
pub struct Fresh {
    exchange: Exchange,
    at: Ticks,
}

impl Model for Fresh {
    ghost use Rattle.std.specs.Prelude.{◌≤◌};
    ghost use Rattle.offset_track.specs.Track.{Chosen};

    ghost Value = { Chosen };

    ghost view = { λ f. record { exchange = f.exchange; at = f.at } };

    ghost invariant = { λ f. f.exchange.a1 ≤ f.at };

    ghost inverse = { λ c. record { exchange = c.exchange; at = c.at } };
}

impl Fresh {
    /// The exchange.
    pub fn exchange(&self) -> Exchange
        ensures exchange { result ≡ self.now.exchange }
        ensures begun { result.a1 ≤ self.now.at }
    {
        self.exchange
    }

    /// The stamp for which it was chosen.
    pub fn now(&self) -> Ticks
        ensures { result ≡ self.now.at }
    {
        self.at
    }

    /// Twice the offset of the peer's clock for the own one by this exchange, in ticks.
    pub fn estimate2(&self) -> i64
        ensures estimate { result ≡ estimate2 self.now.exchange }
        ensures size { unsigned_abs result < 2 ^ 49 }
    {
        self.exchange.estimate2()
    }
}

impl Track {
    /// An empty track with the settings `slow` and `age`.
    pub fn new(s: &Settings) -> Track
        ensures track { result ≡ record { slow = s.now.slow; age = s.now.age; newest_first = [] } }
        ensures stands { StandsFor result [] }
    {
        let fields = s.fields();
        Track {
            slow: fields.slow,
            age: fields.age,
            kept: ArrayVec::new(),
        }
    }

    /// Keeps the exchange as the newest, and lets the oldest of nine go. `Slow` exactly where its round trip is greater than
    /// the setting `slow`; then nothing changes.
    pub fn accept(&mut self, e: Exchange) -> Taken
        ensures taken { result ≡ (if is_slow self.old.slow e then Taken.Slow else Taken.Kept) }
        ensures track { self.new ≡ with_exchange self.old e }
        ensures stands { (offered : List Stamps) → StandsFor self.old offered → StandsFor self.new (offered ++ e ∷ []) }
    {
        if e.round_trip() > i64::from(self.slow) {
            return Taken::Slow;
        }
        if self.kept.is_full() {
            self.kept.pop();
        }
        self.kept.insert(0, e);
        Taken::Kept
    }

    /// The exchange in force at that stamp. The candidates are the kept exchanges that began by then and at most the setting
    /// `age` before; of them that with the least round trip, and among equals the newest. None exactly where there is no
    /// candidate.
    pub fn in_force(&self, now: Ticks) -> Option<Fresh>
        ensures chosen { result ≡ option_map (λ e. record { exchange = e; at = now }) (chosen (λ e. e) self.now.age now self.now.newest_first) }
        ensures in_force { (offered : List Stamps) → StandsFor self.now offered
            → result ≡ option_map (λ e. record { exchange = e; at = now }) (InForce (λ e. e) self.now.slow self.now.age now offered) }
    {
        let exchange = chosen(self.kept.as_slice(), self.age, now.get())?;
        Some(Fresh { exchange, at: now })
    }

    /// Whether an exchange is in force at that stamp, which is less work than to say which one.
    pub fn is_aligned(&self, now: Ticks) -> bool
        ensures chosen { result ≡ is_some (chosen (λ e. e) self.now.age now self.now.newest_first) }
        ensures in_force { (offered : List Stamps) → StandsFor self.now offered
            → result ≡ is_some (InForce (λ e. e) self.now.slow self.now.age now offered) }
    {
        newest_candidate(self.kept.as_slice(), self.age, now.get()).is_some()
    }

    /// The last stamp up to which the newest candidate at `now` stays a candidate, so that an exchange is in force at every stamp
    /// from `now` to it. None exactly where no exchange is in force at `now`.
    pub fn aligned_until(&self, now: Ticks) -> Option<u64>
        ensures until { result ≡ option_map (λ e. e.a1 + self.now.age) (find (is_candidate self.now.age now) self.now.newest_first) }
        ensures aligned { is_some result ≡ is_some (chosen (λ e. e) self.now.age now self.now.newest_first) }
        ensures lasts { ForSome result (λ until. (stamp : ℕ) → now ≤ stamp → stamp ≤ until
            → is_some (chosen (λ e. e) self.now.age stamp self.now.newest_first) ≡ true) }
    {
        let newest = newest_candidate(self.kept.as_slice(), self.age, now.get())?;
        Some(newest.a1 + u64::from(self.age))
    }
}

// The first candidate with the least round trip.
fn chosen(newest_first: &[Exchange], age: u32, now: u64) -> Option<Exchange>
    ensures { result ≡ chosen (λ e. e) age now newest_first.now }
{
    let mut best = None;
    for e in newest_first {
        if is_candidate(e, age, now) {
            best = Some(lesser(best, *e));
        }
    }
    best
}

// The first candidate.
fn newest_candidate(newest_first: &[Exchange], age: u32, now: u64) -> Option<Exchange>
    ensures { result ≡ find (is_candidate age now) newest_first.now }
{
    newest_first
        .iter()
        .copied()
        .find(|e| is_candidate(e, age, now))
}

fn is_candidate(e: &Exchange, age: u32, now: u64) -> bool
    ensures { result ≡ is_candidate age now e.now }
{
    e.a1 <= now && now - e.a1 <= u64::from(age)
}

// The one with the lesser round trip, and of equals the first.
fn lesser(best: Option<Exchange>, e: Exchange) -> Exchange
    ensures { MatchOption best (result ≡ e) (λ b. result ≡ (if int_lt (round_trip e) (round_trip b) then e else b)) }
{
    match best {
        Some(best) if best.round_trip() <= e.round_trip() => best,
        _ => e,
    }
}
