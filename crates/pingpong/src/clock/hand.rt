ghost use Rattle.std.specs.Prelude.{◌≡◌, ◌<◌, ◌≤◌, ◌+◌, ◌/◌, All, unsigned_abs};
ghost use Rattle.std.specs.List.Sorted.{IsNonDecreasingBy};
ghost use Rattle.pingpong.specs.Clock.{gain, phase, rate_at};
ghost use Rattle.pingpong.specs.Hand.{IsPace};

use super::{Clock, MILLION, RateFrom, gain_of};
use std::marker::Model;

/// A hand that goes with a clock from tick to tick. It shows the phases of the clock and sums none of them anew.
#[derive(Drop)]
pub struct Hand {
    clock: Clock,
    time: u64,
    phase: u64,
    pace: Pace,
}

// How many rates were passed, and what a tick gains by the last of them.
#[derive(Clone, Copy)]
struct Pace {
    passed: usize,
    gain: u64,
}

impl Model for Hand {
    ghost use Rattle.pingpong.specs.Hand.{At, IsHand};

    ghost Value = { At };

    ghost view = { λ h. record { course = h.clock; time = h.time } };

    ghost invariant = { λ h. IsHand h.clock h.time h.phase h.pace.passed h.pace.gain };
}

impl Hand {
    /// A hand of that clock at true time 0.
    pub fn new(clock: Clock) -> Hand
        ensures { result ≡ record { course = clock; time = 0 } }
    {
        let phase = clock.phase(0);
        Hand {
            clock,
            time: 0,
            phase,
            pace: Pace {
                passed: 0,
                gain: MILLION,
            },
        }
    }

    /// The true time that it has come to, at most 60,000,000 ticks.
    pub fn time(&self) -> u64
        ensures time { result ≡ self.now.time }
        ensures most { result ≤ 60000000 }
    {
        self.time
    }

    /// The phase of the clock at that time, in millionths of a tick.
    pub fn phase(&self) -> u64
        ensures phase { result ≡ phase self.now.course self.now.time }
        ensures stamp { result / 1000000 ≤ 2000000000000 }
    {
        self.phase
    }

    /// Goes on by a tick, below true time 60,000,000.
    pub fn advance(&mut self)
        requires { self.old.time < 60000000 }
        ensures { self.new ≡ record self.old { time = self.old.time + 1 } }
    {
        let clock = &self.clock;
        let pace = pace_in(clock.rates.as_slice(), self.time, self.pace);
        self.phase += pace.gain;
        self.time += 1;
        self.pace = pace;
    }
}

// The pace in that tick, from the pace in an earlier one.
fn pace_in(rates: &[RateFrom], time: u64, pace: Pace) -> Pace
    requires in_range { All (λ r. unsigned_abs r.rate ≤ 200) rates.now }
    requires in_turn { IsNonDecreasingBy (λ r. r.from) rates.now }
    requires pace { IsPace rates.now time pace.passed pace.gain }
    ensures pace { IsPace rates.now time result.passed result.gain }
    ensures gain { result.gain ≡ gain (rate_at rates.now time) }
    ensures most { result.gain ≤ 1000200 }
{
    let mut passed = pace.passed;
    let mut gain = pace.gain;
    while passed < rates.len() && rates[passed].from <= time {
        gain = gain_of(rates[passed].rate);
        passed += 1;
    }
    Pace { passed, gain }
}
