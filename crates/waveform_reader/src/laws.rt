//! The laws of scenarios, each the contract of a function that does nothing but name the laws on which it rests.

ghost use Rattle.std.specs.Prelude.{◌≡◌, ℕ, ℤ, ◌<◌, ◌≤◌, List, All, AllPairs, Contains, Ok, unsigned_abs};
ghost use Rattle.ld_base.specs.Phases.{no_current};
ghost use Rattle.pingpong.specs.Clock.{Course, reading};
ghost use Rattle.pingpong.specs.Journal.{IsJournal};
ghost use Rattle.pingpong.specs.Reading.{WithinDrift};
ghost use Rattle.pingpong.specs.declared.journal.Entry.{Entry};
ghost use Rattle.row_reader.specs.Rows.{Row};
ghost use Rattle.waveform_reader.specs.Scenario.{Setup, phases_at, scenario_of};
ghost use Rattle.waveform_reader.specs.Shapes.{value_at, wave_value};
ghost use Rattle.waveform_reader.specs.Sound.{ArePhases, IsSetup};

use phasor::laws::a_factor_stays_within_its_scale;
use pingpong::laws::a_clock_keeps_its_drift;

/// The clocks of every scenario keep within its drift. So entries whose times never fall, and which have the phases of its
/// clocks, are a journal.
pub fn clocks_keep_their_drift()
    ensures each { (s : Setup) (clock : Course) (first last : ℕ) → IsSetup s → Contains s.clocks clock → first ≤ last
        → WithinDrift s.settings.drift (reading clock first) (reading clock last) }
    ensures journal { (s : Setup) (journal : List Entry) → IsSetup s → AllPairs (λ earlier later. earlier.time ≤ later.time) journal
        → All (λ entry. entry.phases ≡ phases_at s entry.time) journal → IsJournal s.settings.drift journal }
{
    a_clock_keeps_its_drift();
}

/// No value of a wave is greater than its amplitude.
pub fn a_wave_stays_within_its_amplitude()
    ensures { (twentieths step : ℕ) (amplitude : ℤ) → unsigned_abs (wave_value twentieths amplitude step) ≤ unsigned_abs amplitude }
{
    a_factor_stays_within_its_scale();
}

/// Every value of every scenario is one of the converter.
pub fn values_are_of_the_converter()
    ensures { (s : Setup) (station t : ℕ) → IsSetup s → ArePhases (value_at s.settings s.shapes station t) }
{
    a_factor_stays_within_its_scale();
}

/// In a scenario of two stations the third has no current, and so has each station that isn't there.
pub fn a_station_that_is_not_there_has_no_current()
    ensures { (s : Setup) (station t : ℕ) → IsSetup s → s.settings.stations < station
        → value_at s.settings s.shapes station t ≡ no_current }
{}

/// The scenario of rows that break no rule keeps what every scenario keeps.
pub fn accepted_rows_make_a_scenario()
    ensures { (rows : List Row) (s : Setup) → scenario_of rows ≡ Ok s → IsSetup s }
{}
