//! The command `bench`: the terminals of a line run over a scenario.

ghost use Rattle.std.specs.Prelude.{IfOk};
ghost use Rattle.bench_cmd.specs.Outcomes.{IsOutcome};
ghost use Rattle.bench_cmd.specs.ReportText.{bench_text};

use crate::output::Outcome;
use crate::reports::report;
use crate::script_wires::script_wires;
use ld_base::NoMemory;
use row_reader::Fault;
use std::alloc::Global;
use waveform_reader::{ReadScenario, read};

/// The report of the run of the input's scenario, or the first row with a fault.
pub(crate) fn bench(alloc: Global, input: &[u8]) -> Result<Outcome, NoMemory>
    ensures { IfOk result (λ made. IsOutcome made (bench_text input.now)) }
{
    match read(alloc, input) {
        Ok(scenario) => {
            let wires = script_wires(alloc, &scenario)?;
            let (_, text) = report(alloc, scenario, wires)?;
            Ok(Outcome::Text(text))
        }
        Err(ReadScenario::Bad { row, reason }) => Ok(Outcome::Bad(Fault { row, reason })),
        Err(ReadScenario::NoMemory) => Err(NoMemory),
    }
}
