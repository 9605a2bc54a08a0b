//! The laws of the answers and of the texts, each the contract of a function that does nothing but name the law on which it rests.

ghost use Rattle.std.specs.Prelude.{◌≡◌, ◌≤◌, ◌++◌, ℕ, List, Ok, Option, Result};
ghost use Rattle.bench_cmd.specs.Answers.{Answers};
ghost use Rattle.bench_cmd.specs.GeneratorText.{generated_text, sums_of};
ghost use Rattle.bench_cmd.specs.ReportText.{bench_text, report_of};
ghost use Rattle.line_world.specs.Run.{Run};
ghost use Rattle.scenario_generator.specs.Rows.{scenario_text};
ghost use Rattle.waveform_reader.specs.Scenario.{Setup};
ghost use Rattle.row_reader.specs.declared.fault.Fault.{Fault};
ghost use Rattle.ld_base.specs.Ends.{End};
ghost use Rattle.bench_cmd.specs.declared.status.Status.TheVariants.{ReadFault};

use scenario_generator::laws::every_number_gives_a_scenario;

/// Over a source whose count of faults is the constant 0, as `SureSource`'s, no run answers `ReadFault`.
pub fn a_sure_source_has_no_read_fault()
    ensures { (job : List ℕ → Result (List ℕ) Fault) (left left' : Option (List ℕ)) (sink sink' : End)
        → ¬ Answers job (record { bytes = left; faults = 0 }) (record { bytes = left'; faults = 0 }) sink sink' ReadFault }
{}

/// What `gen` writes is itself a scenario: `bench` on it reports the run whose sums stand in its last line.
pub fn generated_texts_have_the_sums_of_their_runs()
    ensures { (number ticks : ℕ) → 1000 ≤ ticks → ticks ≤ 20000000
        → (s : Setup) × (generated_text number ticks ≡ scenario_text number ticks ++ sums_of s (Run s))
        × (bench_text (generated_text number ticks) ≡ Ok (report_of s (Run s))) }
{
    every_number_gives_a_scenario();
}
