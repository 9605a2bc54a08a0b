ghost use Rattle.std.specs.Prelude.{◌≡◌, ◌≤◌, ◌^◌, ◌≢◌, ◌++◌, ◌∷◌, [], ℕ, IfSome, List, option_to_list};
ghost use Rattle.pingpong.specs.Exchange.{estimate2};
ghost use Rattle.sample_store.specs.Aligned.{Aligned};
ghost use Rattle.sample_store.specs.Answers.{kept_in, own_answer, place_answer, set_answer, whole_at, with_given};
ghost use Rattle.sample_store.specs.Calls.{Asked, Call, Given, Offered, offers_of};
ghost use Rattle.sample_store.specs.Offers.{Own, Value, numbered};
ghost use Rattle.sample_store.specs.Offers as offers;
ghost use Rattle.sample_store.specs.Stock.{IsPeer, StandsFor, held_at, ring_of};

use crate::aligned::aligned;
use crate::ring::Ring;
use ld_base::{Phases, SampleSet, Settings, Station, Ticks};
use offset_track::Fresh;
use std::marker::Model;

/// What became of an own sample.
#[derive(Clone, Copy, Debug, PartialEq, Eq)]
pub enum OwnTaken {
    /// It is kept under this number.
    Took(u32),
    /// Its stamp isn't at a multiple of the spacing, nor a tick later.
    OffGrid,
    /// Its number isn't above the last one taken, which is this.
    Again(u32),
}

/// What became of a peer's value. Each tells the number to which it is aligned.
#[derive(Clone, Copy, Debug, PartialEq, Eq)]
pub enum Placed {
    /// The number is negative, or its sample isn't younger than the limit.
    Stale(i64),
    /// Its sample is more than a spacing ahead.
    Ahead(i64),
    /// A value of this peer is kept there.
    Double(u32),
    /// It is kept there.
    Stored(u32),
}

/// The samples of a station and the values of its peers, by the number of the own sample. Of each station it keeps 64.
#[derive(Drop)]
pub struct Store {
    settings: Settings,
    me: u8,
    now: u64,
    own_next: u64,
    given_next: u64,
    rings: [Ring; 3],
}

impl Model for Store {
    ghost use Rattle.std.specs.Prelude.{◌≤◌, ◌^◌};
    ghost use Rattle.sample_store.specs.Stock.{Stock};

    ghost Value = { Stock };

    ghost view = { λ s. record { fields = s.settings; me = s.me; now = s.now; own_next = s.own_next; given_next = s.given_next; rings = s.rings } };

    ghost invariant = { λ s. (1 ≤ s.me) × (s.me ≤ 3) × (s.me ≤ s.settings.stations) × (s.own_next ≤ 2 ^ 32) × (s.given_next ≤ 2 ^ 32) };
}

impl Store {
    /// An empty store of station `me`.
    pub fn new(s: &Settings, me: Station) -> Store
        requires { me ≤ s.now.stations }
        ensures settings { (result.fields ≡ s.now) × (result.me ≡ me) × (result.now ≡ 0) }
        ensures stands { StandsFor result [] }
    {
        Store {
            settings: *s,
            me: me.get(),
            now: 0,
            own_next: 0,
            given_next: 0,
            rings: [Ring::new(); 3],
        }
    }

    /// Takes an own sample at a stamp, which isn't below that of an earlier change.
    pub fn own(&mut self, now: Ticks, v: Phases) -> OwnTaken
        requires { self.old.now ≤ now }
        ensures settings { (self.new.fields ≡ self.old.fields) × (self.new.me ≡ self.old.me) × (self.new.now ≤ now) }
        ensures given_next { self.new.given_next ≡ self.old.given_next }
        ensures taken { result ≡ own_answer self.old.fields.spacing self.old.own_next now }
        ensures refused { ((number : ℕ) → result ≢ OwnTaken.Took number) → self.new ≡ self.old }
        ensures stands { (calls : List Call) → StandsFor self.old calls → StandsFor self.new (calls ++ Offered (Own now v) ∷ []) }
    {
        let taken = own_number(self.settings.fields().spacing, self.own_next, now.get());
        if let OwnTaken::Took(number) = taken {
            self.rings[usize::from(self.me) - 1].put(number, v);
            self.own_next = u64::from(number) + 1;
            self.now = now.get();
        }
        taken
    }

    /// Puts a peer's value of a number under the own number to which the exchange in force aligns it. The stamp of that isn't
    /// below that of an earlier change.
    pub fn place(&mut self, fresh: Fresh, peer: Station, number: u32, v: Phases) -> Placed
        requires at { self.old.now ≤ fresh.at }
        requires peer { IsPeer self.old peer }
        ensures settings { (self.new.fields ≡ self.old.fields) × (self.new.me ≡ self.old.me) × (self.new.now ≤ fresh.at) }
        ensures given_next { self.new.given_next ≡ self.old.given_next }
        ensures placed { result ≡ place_answer self.old.fields.spacing self.old.fields.limit fresh.at (held_at (ring_of self.old peer))
            (Aligned self.old.fields.spacing number (estimate2 fresh.exchange)) }
        ensures over_all_calls { (calls : List Call) → StandsFor self.old calls
            → result ≡ place_answer self.old.fields.spacing self.old.fields.limit fresh.at
            (λ n. numbered n (offers.Placed self.old.fields.spacing self.old.fields.limit peer (offers_of calls)))
            (Aligned self.old.fields.spacing number (estimate2 fresh.exchange)) }
        ensures refused { ((n : ℕ) → result ≢ Placed.Stored n) → self.new ≡ self.old }
        ensures stands { (calls : List Call) → StandsFor self.old calls → StandsFor self.new (calls ++ Offered (Value fresh peer number v) ∷ []) }
    {
        let fields = self.settings.fields();
        let place = usize::from(peer.get()) - 1;
        let placed = place_number(
            fields.spacing,
            fields.limit,
            &fresh,
            number,
            &self.rings[place],
        );
        if let Placed::Stored(n) = placed {
            self.rings[place].put(n, v);
            self.now = fresh.now().get();
        }
        placed
    }

    /// The set of a number, which counts as given from then on. Some exactly where the own sample and a value of each peer are
    /// kept under it, it is younger than the limit, and its number is above those of all sets given. The stamp isn't below that
    /// of an earlier change.
    pub fn complete(&mut self, now: Ticks, n: u32) -> Option<SampleSet>
        requires { self.old.now ≤ now }
        ensures set { result ≡ set_answer self.old.fields self.old.given_next self.old.rings now n }
        ensures above { IfSome result (λ set. (set.number ≡ n) × (self.old.given_next ≤ n)) }
        ensures settings { (self.new.fields ≡ self.old.fields) × (self.new.me ≡ self.old.me) × (self.new.now ≡ self.old.now) }
        ensures store { self.new ≡ with_given self.old result }
        ensures given { (calls : List Call) → StandsFor self.old calls
            → Given self.old.fields self.old.me (calls ++ Asked now n ∷ []) ≡ Given self.old.fields self.old.me calls ++ option_to_list result }
        ensures stands { (calls : List Call) → StandsFor self.old calls → StandsFor self.new (calls ++ Asked now n ∷ []) }
    {
        let set = set_to_give(&self.settings, self.given_next, &self.rings, now.get(), n)?;
        self.given_next = u64::from(n) + 1;
        Some(set)
    }
}

// What becomes of an own sample, where `next` is the least number above those of all samples taken.
fn own_number(spacing: u32, next: u64, now: u64) -> OwnTaken
    requires spacing { (500 ≤ spacing) × (spacing ≤ 10000) }
    requires next { next ≤ 2 ^ 32 }
    requires now { now ≤ 2000000000000 }
    ensures { result ≡ own_answer spacing next now }
{
    let spacing = u64::from(spacing);
    if now % spacing > 1 {
        return OwnTaken::OffGrid;
    }
    let number = now / spacing;
    if number < next {
        return OwnTaken::Again((next - 1) as u32);
    }
    OwnTaken::Took(number as u32)
}

// What becomes of a peer's value of a number.
fn place_number(spacing: u32, limit: u32, fresh: &Fresh, number: u32, ring: &Ring) -> Placed
    requires spacing { (500 ≤ spacing) × (spacing ≤ 10000) }
    ensures { result ≡ place_answer spacing limit fresh.now.at (held_at ring.now) (Aligned spacing number (estimate2 fresh.now.exchange)) }
{
    let n = aligned(spacing, number, fresh.estimate2());
    if n < 0 {
        return Placed::Stale(n);
    }
    let spacing = u64::from(spacing);
    let now = fresh.now().get();
    let place = n as u64;
    if place > now / spacing + 1 {
        return Placed::Ahead(n);
    }
    if place * spacing + u64::from(limit) <= now {
        return Placed::Stale(n);
    }
    let place = place as u32;
    match ring.held(place) {
        Some(_) => Placed::Double(place),
        None => Placed::Stored(place),
    }
}

// The set of a number, where `next` is the least number above those of all sets given.
fn set_to_give(
    settings: &Settings,
    next: u64,
    rings: &[Ring; 3],
    now: u64,
    n: u32,
) -> Option<SampleSet>
    ensures { result ≡ set_answer settings.now next rings.now now n }
{
    let fields = settings.fields();
    if u64::from(n) * u64::from(fields.spacing) + u64::from(fields.limit) <= now {
        return None;
    }
    if u64::from(n) < next {
        return None;
    }
    whole_set(fields.stations, rings, n)
}

// The set that is kept under a number.
fn whole_set(stations: u8, rings: &[Ring; 3], n: u32) -> Option<SampleSet>
    ensures { result ≡ whole_at stations rings.now n }
{
    let first = kept(stations, 1, &rings[0], n)?;
    let second = kept(stations, 2, &rings[1], n)?;
    let third = kept(stations, 3, &rings[2], n)?;
    Some(SampleSet {
        number: n,
        values: [first, second, third],
    })
}

// The values that are kept of a station under a number, in its ring.
fn kept(stations: u8, station: u8, ring: &Ring, n: u32) -> Option<Phases>
    ensures { result ≡ kept_in stations station ring.now n }
{
    if station > stations {
        Some(Phases { a: 0, b: 0, c: 0 })
    } else {
        ring.held(n)
    }
}
