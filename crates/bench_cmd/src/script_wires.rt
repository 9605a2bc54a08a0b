//! The wires of a scenario's directed lines.

ghost use Rattle.std.specs.Prelude.{◌≡◌, IfOk};
ghost use Rattle.bench_cmd.specs.ScriptWires.{wires_of};

use ld_base::NoMemory;
use line_world::{ScriptWire, directed_lines};
use std::alloc::Global;
use waveform_reader::Scenario;

/// A wire for each directed line, by receiver and then by sender.
pub(crate) fn script_wires(alloc: Global, scenario: &Scenario) -> Result<Vec<ScriptWire>, NoMemory>
    ensures { IfOk result (λ wires. wires.items ≡ wires_of scenario.now) }
{
    let lines = directed_lines(scenario.settings());
    let mut wires = Vec::with_capacity(alloc, lines.len())?;
    for (from, to) in lines.iter() {
        wires.push(ScriptWire::new(alloc, scenario, *from, *to)?)?;
    }
    Ok(wires)
}
