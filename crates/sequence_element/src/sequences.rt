//! The zero and the negative sequence of a station's phases.

ghost use Rattle.std.specs.Prelude.{◌≡◌, All};
ghost use Rattle.alpha_plane.specs.Outside.{station_bits};
ghost use Rattle.phasor.specs.Point.{IsWithin};
ghost use Rattle.phasor.specs.Sizes.{sum_bits};
ghost use Rattle.sequence_element.specs.Sequences.{combined, negative_sequence, zero_sequence};

use alpha_plane::Current;
use phasor::Phasor;
use std::marker::Model;

// The scale of the negative sequence, and the imaginary part of a third of a turn in it; the real part is half the scale, below
// zero.
const SCALE: i64 = 1024;

const HALF: i64 = 512;

const ACROSS: i64 = 887;

/// A sequence of a station's phases in whole numbers: a zero sequence in the scale of phasors, or a negative one at 1024 times
/// that. Each part lies within 2^47 either way.
#[derive(Clone, Copy, Debug, PartialEq, Eq)]
pub struct Wide {
    pub re: i64,
    pub im: i64,
}

impl Model for Wide {
    ghost use Rattle.phasor.specs.Point.{Point, IsWithin};

    ghost Value = { Point };

    ghost view = { λ w. record { re = w.re; im = w.im } };

    ghost invariant = { λ w. IsWithin 47 (record { re = w.re; im = w.im }) };

    ghost inverse = { λ w. record { re = w.re; im = w.im } };
}

impl From<Wide> for Current {
    ghost from_gives = { λ wide current. current ≡ wide };

    fn from(wide: Wide) -> Current {
        Current {
            re: wide.re,
            im: wide.im,
        }
    }
}

/// The zero sequence of a station's phases a, b and c: their sum. It isn't divided by three.
pub fn zero_of(p: &[Phasor; 3]) -> Wide
    requires { All (IsWithin sum_bits) p.now }
    ensures sequence { result ≡ zero_sequence p.now }
    ensures size { IsWithin station_bits result }
{
    let [a, b, c] = *p;
    Wide {
        re: a.re + b.re + c.re,
        im: a.im + b.im + c.im,
    }
}

/// The negative sequence of a station's phases a, b and c, at 1024 times its size: a, b turned forwards by a third of a turn and
/// c turned backwards, added up. Forwards is the way in which a's sum comes to b's where the phases follow each other as a, b, c.
/// It isn't divided by three.
pub fn negative_of(p: &[Phasor; 3]) -> Wide
    requires { All (IsWithin sum_bits) p.now }
    ensures sequence { result ≡ negative_sequence p.now }
    ensures size { IsWithin station_bits result }
{
    let [a, b, c] = *p;
    // Both turns have one real part and opposite imaginary parts, so they share the products.
    combined(a, b.plus(c), b.minus(c))
}

// 1024 times `a`, and `both` and `apart`, the sum and the difference of two phasors, turned as their turns come to.
fn combined(a: Phasor, both: Phasor, apart: Phasor) -> Wide
    requires a { IsWithin sum_bits a }
    requires both { IsWithin 35 both }
    requires apart { IsWithin 35 apart }
    ensures sequence { result ≡ combined a both apart }
    ensures size { IsWithin station_bits result }
{
    Wide {
        re: SCALE * a.re - HALF * both.re - ACROSS * apart.im,
        im: SCALE * a.im - HALF * both.im + ACROSS * apart.re,
    }
}

#[cfg(test)]
mod tests;
