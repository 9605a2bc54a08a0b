//! What a report tells of a run.

ghost use Rattle.std.specs.Prelude.{◌≡◌};
ghost use Rattle.line_journal.specs.Totals.{no_total};

use channel_alarm::Turn;
use ld_base::Station;
use trip_logic::Verdict;

/// A line of a report. Its time is the true tick at which it came about.
#[derive(Clone, Copy, Debug, PartialEq, Eq)]
pub enum Line {
    /// A station accepted a message of a peer that completed an exchange which was kept, and this exchange is in force then.
    Est {
        time: u64,
        station: Station,
        peer: Station,
        /// Twice the peer's clock less the own one, in ticks, as the exchange has it.
        estimate2: i64,
        /// The time on the two lines together, in ticks.
        round_trip: i64,
        /// How far the estimate is from the truth, in half millionths of a tick.
        error: u128,
        /// How far it can be by the delays of its two messages, in half millionths of a tick. None where one of them wasn't sent
        /// as it was accepted.
        bound: Option<u128>,
    },
    /// A station judged a set.
    Judged {
        time: u64,
        station: Station,
        number: u32,
        /// The verdicts of the phases a, b and c.
        verdicts: [Verdict; 3],
    },
    /// An alarm of a peer's channel changed at a station.
    Alarm {
        time: u64,
        station: Station,
        peer: Station,
        turn: Turn,
    },
}

/// What a station counted in a run.
#[derive(Clone, Copy, Debug, PartialEq, Eq)]
pub struct Total {
    /// Messages accepted.
    pub accepted: u64,
    /// Sets judged.
    pub sets: u64,
    /// Sets that trip a phase.
    pub trips: u64,
    /// Calls with bits by which a place of the payload was refused.
    pub refused: u64,
    /// Messages with another address.
    pub strange: u64,
    /// Messages whose number isn't above that of the last one accepted.
    pub repeats: u64,
    /// Exchanges that took too long.
    pub slow: u64,
    /// Bad frames.
    pub bad: u64,
}

impl Default for Total {
    /// Nothing counted.
    fn default() -> Total
        ensures { result ≡ no_total }
    {
        Total {
            accepted: 0,
            sets: 0,
            trips: 0,
            refused: 0,
            strange: 0,
            repeats: 0,
            slow: 0,
            bad: 0,
        }
    }
}
