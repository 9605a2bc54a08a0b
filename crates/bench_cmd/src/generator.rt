//! The command `gen`: the scenario of a number, and what its run sums up to.

ghost use Rattle.std.specs.Prelude.{◌≡◌, ◌≤◌, ◌<◌, ◌^◌, Ok, IfOk};
ghost use Rattle.row_reader.specs.Rows.{rows_of};
ghost use Rattle.waveform_reader.specs.Scenario.{scenario_of};
ghost use Rattle.scenario_generator.specs.Rows.{scenario_text};
ghost use Rattle.bench_cmd.specs.GeneratorText.{generated_text};

use crate::report_lines::write_sums;
use crate::reports::{run_of, totals_of};
use ld_base::NoMemory;
use scenario_generator::generate;
use scenario_generator::laws::every_number_gives_a_scenario;
use std::alloc::Global;
use waveform_reader::{ReadScenario, Scenario, read};

/// The text of a number's scenario that lasts so many ticks, and a last line with the sums of its run.
pub(crate) fn generated(alloc: Global, number: u64, ticks: u64) -> Result<Vec<u8>, NoMemory>
    requires number { number < 10 ^ 18 }
    requires ticks { (1000 ≤ ticks) × (ticks ≤ 20000000) }
    ensures { IfOk result (λ text. text.items ≡ generated_text number ticks) }
{
    let mut text = generate(alloc, number, ticks)?;
    let scenario = read_generated(alloc, number, ticks, &text)?;
    let stations = scenario.settings().fields().stations;
    let world = run_of(alloc, scenario)?;
    let totals = totals_of(alloc, &world, stations)?;
    write_sums(&mut text, &totals, world.forged())?;
    Ok(text)
}

// The scenario of a number's text.
fn read_generated(alloc: Global, number: u64, ticks: u64, text: &[u8]) -> Result<Scenario, NoMemory>
    requires ticks { (1000 ≤ ticks) × (ticks ≤ 20000000) }
    requires text { text.now ≡ scenario_text number ticks }
    ensures { IfOk result (λ scenario. scenario_of (rows_of (scenario_text number ticks)) ≡ Ok scenario) }
{
    every_number_gives_a_scenario();
    match read(alloc, text) {
        Ok(scenario) => Ok(scenario),
        Err(ReadScenario::Bad { .. }) => unreachable!(),
        Err(ReadScenario::NoMemory) => Err(NoMemory),
    }
}
