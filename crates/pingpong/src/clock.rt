ghost use Rattle.std.specs.Prelude.{◌≡◌, ◌+◌, ◌*◌, ◌≤◌, ◌/◌, ◌↔◌, All, IsTrue, SomeIff, unsigned_abs};
ghost use Rattle.std.specs.List.Sorted.{IsNonDecreasingBy};
ghost use Rattle.pingpong.specs.Clock.{IsCourse, gain, phase};

mod hand;

use arrayvec::ArrayVec;
pub use hand::Hand;
use std::marker::Model;

/// Millionths of a tick.
pub const MILLION: u64 = 1_000_000;

/// The last start of a clock, in ticks.
pub const LAST_START: u64 = 1_000_000_000_000;

/// The most rates of a clock.
pub const MOST_RATES: usize = 16;

/// A rate of a clock, from a tick of true time on.
#[derive(Clone, Copy, Debug, PartialEq, Eq, Default)]
pub struct RateFrom {
    /// The first tick in which it holds.
    pub from: u64,
    /// What the phase gains in a tick beyond a million, in millionths of a tick: -200 to 200.
    pub rate: i32,
}

/// A clock of the bench, which gains about a tick in a tick of true time. (This project's own.)
#[derive(Drop)]
pub struct Clock {
    start: u64,
    rates: ArrayVec<RateFrom, 16>,
}

impl Model for Clock {
    ghost use Rattle.pingpong.specs.Clock.{Course, IsCourse};

    ghost Value = { Course };

    ghost view = { λ c. record { start = c.start; rates = c.rates.items } };

    ghost invariant = { λ c. IsCourse (record { start = c.start; rates = c.rates.items }) };
}

impl Clock {
    /// A clock that shows so many ticks at true time 0, and goes by these rates, of which the last that has begun holds. Before
    /// the first its rate is 0. None exactly where the start is above 1,000,000,000,000, there are more than 16 rates, a rate
    /// lies outside -200 to 200, or a `from` falls.
    pub fn new(start_ticks: u64, rates: &[RateFrom]) -> Option<Clock>
        ensures { SomeIff result (IsCourse (record { start = start_ticks; rates = rates.now })) (record { start = start_ticks; rates = rates.now }) }
    {
        if start_ticks > LAST_START || !are_in_range(rates) || !are_in_turn(rates) {
            return None;
        }
        let mut kept = ArrayVec::new();
        match kept.try_extend_from_slice(rates) {
            Ok(()) => Some(Clock {
                start: start_ticks,
                rates: kept,
            }),
            Err(_) => None,
        }
    }

    /// The phase at a true time of at most 60,000,000 ticks, in millionths of a tick: a million for each tick of the start, and
    /// for each tick before that time a million and the rate that holds in it.
    pub fn phase(&self, t: u64) -> u64
        requires { t ≤ 60000000 }
        ensures phase { result ≡ phase self.now t }
        ensures most { result ≤ 1000000000000000000 + 1000200 * t }
        ensures stamp { result / 1000000 ≤ 2000000000000 }
    {
        phase_at(self.start, self.rates.as_slice(), t)
    }
}

// The phase at a true time, by the stretches in which one rate holds.
fn phase_at(start: u64, rates: &[RateFrom], t: u64) -> u64
    requires course { IsCourse (record { start = start; rates = rates.now }) }
    requires time { t ≤ 60000000 }
    ensures phase { result ≡ phase (record { start = start; rates = rates.now }) t }
    ensures most { result ≤ 1000000 * start + 1000200 * t }
{
    let mut phase = MILLION * start;
    let mut at = 0;
    let mut gain = MILLION;
    for entry in rates {
        let until = entry.from.min(t);
        phase += gain * (until - at);
        gain = gain_of(entry.rate);
        at = until;
    }
    phase + gain * (t - at)
}

// What a phase gains in a tick at that rate.
fn gain_of(rate: i32) -> u64
    requires { unsigned_abs rate ≤ 200 }
    ensures { result ≡ gain rate }
{
    (MILLION as i64 + i64::from(rate)) as u64
}

fn are_in_range(rates: &[RateFrom]) -> bool
    ensures { IsTrue result ↔ All (λ r. unsigned_abs r.rate ≤ 200) rates.now }
{
    rates.iter().all(|r| r.rate.unsigned_abs() <= 200)
}

fn are_in_turn(rates: &[RateFrom]) -> bool
    ensures { IsTrue result ↔ IsNonDecreasingBy (λ r. r.from) rates.now }
{
    let mut last = 0;
    for entry in rates {
        if entry.from < last {
            return false;
        }
        last = entry.from;
    }
    true
}
