//! The scenario of an input, with the station of it that a command is asked for.

ghost use Rattle.std.specs.Prelude.{◌≤◌, IfOk};
ghost use Rattle.row_reader.specs.Rows.{rows_of};
ghost use Rattle.waveform_reader.specs.Scenario.{scenario_of};
ghost use Rattle.bench_cmd.specs.Asked.{IsAsked};

use ld_base::{NoMemory, Reason, Station};
use row_reader::Fault;
use std::alloc::Global;
use waveform_reader::{ReadScenario, Scenario, read};

/// What an input is to a command that is asked for a station.
#[derive(Drop)]
pub(crate) enum Asked {
    /// A scenario that has the station.
    There { scenario: Scenario, me: Station },
    /// The first row with a broken rule, or row 0 where the scenario lacks the station.
    Bad(Fault),
}

/// The scenario of an input with its station of a number.
pub(crate) fn read_asked(alloc: Global, number: u8, input: &[u8]) -> Result<Asked, NoMemory>
    requires { (1 ≤ number) × (number ≤ 3) }
    ensures { IfOk result (λ made. IsAsked number (scenario_of (rows_of input.now)) made) }
{
    let scenario = match read(alloc, input) {
        Ok(scenario) => scenario,
        Err(ReadScenario::Bad { row, reason }) => return Ok(Asked::Bad(Fault { row, reason })),
        Err(ReadScenario::NoMemory) => return Err(NoMemory),
    };
    if number > scenario.settings().fields().stations {
        return Ok(Asked::Bad(Fault {
            row: 0,
            reason: Reason::Station,
        }));
    }
    let Some(me) = Station::new(number) else {
        unreachable!()
    };
    Ok(Asked::There { scenario, me })
}
