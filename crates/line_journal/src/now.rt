//! A moment of true time.

ghost use Rattle.std.specs.Prelude.{◌≡◌, ◌-◌, ◌/◌, ◌≤◌, slice_index};

use ld_base::{Station, Ticks};

/// Millionths of a tick.
const MILLION: u64 = 1_000_000;

/// A true tick, and the phases of the three stations' clocks then, in millionths of a tick.
#[derive(Clone, Copy, Debug, PartialEq, Eq)]
pub struct Now {
    pub tick: u64,
    pub phases: [u64; 3],
}

impl Now {
    /// The stamp of a station's clock.
    pub fn stamp(&self, station: Station) -> Ticks
        requires { slice_index self.now.phases (station - 1) / 1000000 ≤ 2000000000000 }
        ensures { result ≡ slice_index self.now.phases (station - 1) / 1000000 }
    {
        match Ticks::new(self.phases[usize::from(station.get()) - 1] / MILLION) {
            Some(stamp) => stamp,
            None => unreachable!(),
        }
    }
}
