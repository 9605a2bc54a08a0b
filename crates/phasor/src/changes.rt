//! How the sums change from set to set.

ghost use Rattle.std.specs.Prelude.{◌≡◌, ◌+◌, ◌≤◌, ◌^◌, ◌-ℤ◌, ◌*ℤ◌, ℕ, slice_index_or, true, unsigned_abs};
ghost use Rattle.phasor.specs.Changes.{changed, changed_station, no_sums};
ghost use Rattle.phasor.specs.Point.{IsWithin, origin, plus, scaled};
ghost use Rattle.phasor.specs.Sizes.{AreWithin, AreSamples, IsSample, factor_bits, sample_bits, sum_bits};

use crate::{Phasor, Steps};
use ld_base::Phases;
use std::sync::ledger::Ledger;

/// The sums of no sets.
pub(crate) fn no_sums() -> [[Phasor; 3]; 3]
    ensures { result ≡ no_sums }
{
    [[Phasor::zero(); 3]; 3]
}

/// The sums once the newest values came in and the oldest went out, which have one factor, since a whole cycle lies between
/// them.
pub(crate) fn changed<L: Ledger>(
    sums: &[[Phasor; 3]; 3],
    newest: &[Phases; 3],
    oldest: &[Phases; 3],
    factor: Phasor,
    steps: &mut Steps<L>,
) -> [[Phasor; 3]; 3]
    requires size { AreWithin sum_bits sums.now }
    requires factor { IsWithin factor_bits factor }
    ensures sums { result ≡ changed sums.now newest.now oldest.now factor }
    ensures in_range { AreSamples newest.now }
    ensures steps { steps.new ≤ steps.old + 18 }
{
    [
        changed_station(&sums[0], &newest[0], &oldest[0], factor, steps),
        changed_station(&sums[1], &newest[1], &oldest[1], factor, steps),
        changed_if_there(&sums[2], &newest[2], &oldest[2], factor, steps),
    ]
}

// The same of a station that may not be there: where its values stay, so do its sums.
fn changed_if_there<L: Ledger>(
    sums: &[Phasor; 3],
    newest: &Phases,
    oldest: &Phases,
    factor: Phasor,
    steps: &mut Steps<L>,
) -> [Phasor; 3]
    requires size { (phase : ℕ) → IsWithin sum_bits (slice_index_or sums.now phase origin) }
    requires factor { IsWithin factor_bits factor }
    ensures sums { result ≡ changed_station sums.now newest.now oldest.now factor }
    ensures in_range { IsSample newest.now }
    ensures steps { steps.new ≤ steps.old + 6 }
{
    if is_same(*newest, *oldest) {
        *sums
    } else {
        changed_station(sums, newest, oldest, factor, steps)
    }
}

fn is_same(newest: Phases, oldest: Phases) -> bool
    ensures same { result ≡ true → newest ≡ oldest }
    ensures in_range { IsSample newest }
{
    newest == oldest
}

// The same of one station.
fn changed_station<L: Ledger>(
    sums: &[Phasor; 3],
    newest: &Phases,
    oldest: &Phases,
    factor: Phasor,
    steps: &mut Steps<L>,
) -> [Phasor; 3]
    requires size { (phase : ℕ) → IsWithin sum_bits (slice_index_or sums.now phase origin) }
    requires factor { IsWithin factor_bits factor }
    ensures sums { result ≡ changed_station sums.now newest.now oldest.now factor }
    ensures in_range { IsSample newest.now }
    ensures steps { steps.new ≡ steps.old + 6 }
{
    [
        changed_sum(sums[0], newest.a, oldest.a, factor, steps),
        changed_sum(sums[1], newest.b, oldest.b, factor, steps),
        changed_sum(sums[2], newest.c, oldest.c, factor, steps),
    ]
}

// The same of one sum.
fn changed_sum<L: Ledger>(
    sum: Phasor,
    newest: i16,
    oldest: i16,
    factor: Phasor,
    steps: &mut Steps<L>,
) -> Phasor
    requires size { IsWithin sum_bits sum }
    requires factor { IsWithin factor_bits factor }
    ensures sum { result ≡ plus sum (scaled (newest -ℤ oldest) factor) }
    ensures in_range { unsigned_abs newest ≤ 2 ^ sample_bits }
    ensures steps { steps.new ≡ steps.old + 2 }
{
    let change = i32::from(newest) - i32::from(oldest);
    Phasor {
        re: sum.re + product(change, factor.re, steps),
        im: sum.im + product(change, factor.im, steps),
    }
}

// A product, and its count.
fn product<L: Ledger>(change: i32, factor: i64, steps: &mut Steps<L>) -> i64
    requires change { unsigned_abs change ≤ 2 ^ 16 }
    requires factor { unsigned_abs factor ≤ 2 ^ factor_bits }
    ensures product { result ≡ change *ℤ factor }
    ensures size { unsigned_abs result ≤ 2 ^ 30 }
    ensures steps { steps.new ≡ steps.old + 1 }
{
    steps.tick();
    i64::from(change) * factor
}
