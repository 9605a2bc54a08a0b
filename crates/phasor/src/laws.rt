//! The laws of the sums, each the contract of a function that does nothing.

ghost use Rattle.std.specs.Prelude.{◌≡◌, ℕ, ℤ, ◌<◌, List, true};
ghost use Rattle.ld_base.specs.Settings.{is_cycle};
ghost use Rattle.ld_base.specs.declared.phases.SampleSet.{SampleSet};
ghost use Rattle.phasor.specs.Factors.{factor};
ghost use Rattle.phasor.specs.Offset.{IsMoved, Sum};
ghost use Rattle.phasor.specs.Point.{IsWithin};
ghost use Rattle.phasor.specs.Sizes.{factor_bits};

/// A constant offset of the measured currents counts for nothing: one constant added to the values of a station's phase over
/// a full cycle leaves its sum as it was, and leaves a sum that isn't defined so.
pub fn a_constant_adds_nothing()
    ensures { (station phase c n : ℕ) (constant : ℤ) (judged moved : List SampleSet) → station < 3 → phase < 3
        → is_cycle c ≡ true → IsMoved station phase constant c n judged moved
        → Sum station phase c moved n ≡ Sum station phase c judged n }
{}

/// No part of a factor is above the scale of the tables.
pub fn a_factor_stays_within_its_scale()
    ensures { (c k : ℕ) → IsWithin factor_bits (factor c k) }
{}
