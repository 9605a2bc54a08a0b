//! What a terminal can be handed.

ghost use Rattle.std.specs.Prelude.{◌≡◌, ◌≤◌};
ghost use Rattle.std.specs.Option.{option_to_list};
ghost use Rattle.ld_base.specs.Ticks.{last_stamp};
ghost use Rattle.relay_core.specs.StationLog.{stamp_at};

use ld_base::{Chunk, Phases, Station, Ticks};
use pingpong::{Entry, What};

/// Millionths of a tick.
const MILLION: u64 = 1_000_000;

/// A call of a terminal, with the stamp of the station's clock that is handed in with it.
#[derive(Clone, Copy, Debug, PartialEq, Eq)]
pub enum Call {
    /// An own sample.
    Sample {
        now: Ticks,
        values: Phases,
    },
    /// The next slot.
    Slot {
        now: Ticks,
    },
    /// The next bits of the line from a peer.
    Bits {
        now: Ticks,
        peer: Station,
        chunk: Chunk,
    },
    /// A call on a wire to or from a peer failed.
    Fault {
        now: Ticks,
        peer: Station,
    },
}

impl Call {
    ghost use Rattle.relay_core.specs.StationLog.{calls_by};

    /// The call that station `me` is handed by an entry of a journal, at the stamp that its clock shows then. None exactly where
    /// the entry is another station's.
    pub fn of(e: &Entry, me: Station) -> Option<Call>
        requires { stamp_at me e.now ≤ last_stamp }
        ensures { option_to_list result ≡ calls_by me e.now }
    {
        let now = stamp_at(e, me);
        let (station, call) = match e.what {
            What::Took { station, values } => (station, Call::Sample { now, values }),
            What::Slot { station, .. } => (station, Call::Slot { now }),
            What::Came {
                station,
                peer,
                bits,
            } => (
                station,
                Call::Bits {
                    now,
                    peer,
                    chunk: bits,
                },
            ),
            What::SendFailed { station, peer } | What::TakeFailed { station, peer } => {
                (station, Call::Fault { now, peer })
            }
        };
        if station == me { Some(call) } else { None }
    }
}

// The stamp that a station's clock shows at an entry.
fn stamp_at(e: &Entry, station: Station) -> Ticks
    requires { stamp_at station e.now ≤ last_stamp }
    ensures { result ≡ stamp_at station e.now }
{
    let phase = e.phases[usize::from(station.get()) - 1];
    let Some(stamp) = Ticks::new(phase / MILLION) else {
        unreachable!()
    };
    stamp
}
