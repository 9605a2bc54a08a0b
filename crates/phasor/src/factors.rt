//! The phasor tables.

ghost use Rattle.std.specs.Prelude.{◌≡◌, true};
ghost use Rattle.ld_base.specs.Settings.{is_cycle};
ghost use Rattle.phasor.specs.Factors.{factor};
ghost use Rattle.phasor.specs.Point.{IsWithin};
ghost use Rattle.phasor.specs.Sizes.{factor_bits};
ghost use Rattle.phasor.specs.Tables.{cosines_of};

use crate::Phasor;

// 16384 times the cosine of each place in a cycle, rounded.
static COSINES_4: [i64; 4] = [16384, 0, -16384, 0];

static COSINES_8: [i64; 8] = [16384, 11585, 0, -11585, -16384, -11585, 0, 11585];

static COSINES_12: [i64; 12] = [
    16384, 14189, 8192, 0, -8192, -14189, -16384, -14189, -8192, 0, 8192, 14189,
];

static COSINES_16: [i64; 16] = [
    16384, 15137, 11585, 6270, 0, -6270, -11585, -15137, -16384, -15137, -11585, -6270, 0, 6270,
    11585, 15137,
];

static COSINES_20: [i64; 20] = [
    16384, 15582, 13255, 9630, 5063, 0, -5063, -9630, -13255, -15582, -16384, -15582, -13255,
    -9630, -5063, 0, 5063, 9630, 13255, 15582,
];

// The cosines of each place in a cycle of that many samples.
fn cosines(cycle: u8) -> &'static [i64]
    requires { is_cycle cycle ≡ true }
    ensures { result.now ≡ cosines_of cycle }
{
    match cycle {
        4 => &COSINES_4,
        8 => &COSINES_8,
        12 => &COSINES_12,
        16 => &COSINES_16,
        _ => &COSINES_20,
    }
}

/// The factor of the set of that number, in a cycle of 4, 8, 12, 16 or 20 samples: 16384 times the cosine and the sine of its
/// place in the cycle, rounded. Numbers that lie whole cycles apart have one factor. The sine is the cosine a quarter turn before.
/// (Full-cycle Fourier sums; the whole-number tables are this project's own.)
pub fn factor(cycle: u8, number: u32) -> Phasor
    requires { is_cycle cycle ≡ true }
    ensures factor { result ≡ factor cycle number }
    ensures size { IsWithin factor_bits result }
{
    let cosines = cosines(cycle);
    let places = cosines.len();
    let place = number as usize % places;
    Phasor {
        re: cosines[place],
        im: cosines[(place + places - places / 4) % places],
    }
}
