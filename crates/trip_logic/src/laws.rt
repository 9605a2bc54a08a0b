//! The laws of the trip rule, each the contract of a function that does nothing.

ghost use Rattle.std.specs.Prelude.{◌≡◌, ℕ, ◌<◌, List, false};
ghost use Rattle.ld_base.specs.declared.fields.Fields.{Fields};
ghost use Rattle.ld_base.specs.declared.phases.SampleSet.{SampleSet};
ghost use Rattle.trip_logic.specs.Through.{IsThrough};
ghost use Rattle.trip_logic.specs.TripAt.{Out};

/// Current through the line never trips it: where a phase's values add up to zero over the stations in each of the last cycle
/// of sets, the phase isn't outside, whatever the pickup and the region.
pub fn through_current_is_not_outside()
    ensures { (f : Fields) (judged : List SampleSet) (phase n : ℕ) → phase < 3 → IsThrough f judged phase n
        → Out f judged phase n ≡ false }
{}
