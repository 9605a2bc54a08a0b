//! The phases of a scenario's clocks at a true tick.

ghost use Rattle.std.specs.Prelude.{◌≡◌, ◌≤◌};
ghost use Rattle.line_world.specs.Terminals.{IsNow};

use line_journal::{Now, station};
use waveform_reader::Scenario;

/// A true tick of a scenario, with the phases of its clocks then.
pub(crate) fn now_at(scenario: &Scenario, tick: u64) -> Now
    requires { tick ≤ 60000000 }
    ensures tick { result.tick ≡ tick }
    ensures now { IsNow scenario.now result }
{
    Now {
        tick,
        phases: [
            scenario.clock(station(1)).phase(tick),
            scenario.clock(station(2)).phase(tick),
            scenario.clock(station(3)).phase(tick),
        ],
    }
}
