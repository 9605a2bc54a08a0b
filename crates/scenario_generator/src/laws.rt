//! The law of generated scenarios, the contract of a function that does nothing.

ghost use Rattle.std.specs.Prelude.{◌≡◌, ℕ, ◌≤◌, ◌<◌, ◌^◌, List, ℤ, All, Ok, ◌++◌, ◌∷◌, [], unsigned_abs};
ghost use Rattle.row_reader.specs.PlainRows.{text_of};
ghost use Rattle.row_reader.specs.Rows.{rows_of};
ghost use Rattle.waveform_reader.specs.Scenario.{Setup, scenario_of};
ghost use Rattle.scenario_generator.specs.Rows.{remark_line, scenario_text};

use row_reader::laws::plain_rows_are_read;

/// Every number and every count of ticks in range gives a scenario that breaks no rule. A remark of numbers of up to 64 digits
/// behind it changes nothing of what it says.
pub fn every_number_gives_a_scenario()
    ensures { (number ticks : ℕ) → 1000 ≤ ticks → ticks ≤ 20000000
        → (s : Setup) × (scenario_of (rows_of (scenario_text number ticks)) ≡ Ok s)
        × ((numbers : List ℤ) → All (λ z. unsigned_abs z < 10 ^ 64) numbers
        → scenario_of (rows_of (scenario_text number ticks ++ remark_line numbers)) ≡ Ok s) }
{
    plain_rows_are_read();
}
