//! The current between two currents.

ghost use Rattle.std.specs.Prelude.{◌≡◌, ◌*◌, ◌*ℤ◌, ◌^◌, ◌<◌, ◌≤◌, pos, unsigned_abs};
ghost use Rattle.resample.specs.Values.{mixed_phases, mixed_value, weighed};

use ld_base::Phases;

/// The currents between `one` and `other`, by how far they lie behind `one`: `weight` half ticks of the whole distance, which is
/// twice the spacing. Each is rounded down.
pub(crate) fn mixed_phases(spacing: u32, weight: u32, one: &Phases, other: &Phases) -> Phases
    requires spacing { (500 ≤ spacing) × (spacing ≤ 10000) }
    requires weight { weight < 2 * spacing }
    ensures { result ≡ mixed_phases spacing weight one.now other.now }
{
    Phases {
        a: mixed_value(spacing, weight, one.a, other.a),
        b: mixed_value(spacing, weight, one.b, other.b),
        c: mixed_value(spacing, weight, one.c, other.c),
    }
}

// The value of one phase, which lies between the two and so fits.
fn mixed_value(spacing: u32, weight: u32, x: i16, y: i16) -> i16
    requires spacing { (500 ≤ spacing) × (spacing ≤ 10000) }
    requires weight { weight < 2 * spacing }
    ensures { result ≡ mixed_value spacing weight x y }
{
    let whole = (2 * spacing) as i32;
    let sum = weighed(spacing, weight, x, y);
    sum.div_euclid(whole) as i16
}

// Both values, each weighed by the distance from the other.
fn weighed(spacing: u32, weight: u32, x: i16, y: i16) -> i32
    requires spacing { (500 ≤ spacing) × (spacing ≤ 10000) }
    requires weight { weight < 2 * spacing }
    ensures { result ≡ weighed spacing weight x y }
{
    times(x, 2 * spacing - weight) + times(y, weight)
}

// A value by a weight, which takes less than 30 bits.
fn times(value: i16, weight: u32) -> i32
    requires { weight ≤ 20000 }
    ensures product { result ≡ value *ℤ pos weight }
    ensures size { unsigned_abs result < 2 ^ 30 }
{
    i32::from(value) * weight as i32
}
