//! The command `record`: what a terminal was handed in a run.

ghost use Rattle.std.specs.Prelude.{◌≤◌, IfOk};
ghost use Rattle.bench_cmd.specs.Outcomes.{IsOutcome};
ghost use Rattle.bench_cmd.specs.Recordings.{record_text};

use crate::asked::{Asked, read_asked};
use crate::output::Outcome;
use crate::reports::run_of;
use ld_base::NoMemory;
use recording::recording_text;
use std::alloc::Global;

/// The recording of a station in the run of the input's scenario, or the first row with a fault.
pub(crate) fn record(alloc: Global, station: u8, input: &[u8]) -> Result<Outcome, NoMemory>
    requires { (1 ≤ station) × (station ≤ 3) }
    ensures { IfOk result (λ made. IsOutcome made (record_text station input.now)) }
{
    let (scenario, me) = match read_asked(alloc, station, input)? {
        Asked::There { scenario, me } => (scenario, me),
        Asked::Bad(fault) => return Ok(Outcome::Bad(fault)),
    };
    let settings = *scenario.settings();
    let world = run_of(alloc, scenario)?;
    let text = recording_text(alloc, &settings, me, world.journal())?;
    Ok(Outcome::Text(text))
}
