ghost use Rattle.std.specs.Prelude.{◌≡◌, ◌+◌, ◌^◌, ◌≤◌, unsigned_abs};
ghost use Rattle.phasor.specs.Point.{IsWithin, origin, plus, minus};

use std::marker::Model;

/// A full-cycle phasor in whole numbers: 16384 times the sum of a cycle's samples, turned by their places in it. Each part
/// lies within 2^36 either way.
#[derive(Clone, Copy, Debug, PartialEq, Eq)]
pub struct Phasor {
    pub re: i64,
    pub im: i64,
}

impl Model for Phasor {
    ghost use Rattle.phasor.specs.Point.{Point, IsWithin};

    ghost Value = { Point };

    ghost view = { λ p. record { re = p.re; im = p.im } };

    ghost invariant = { λ p. IsWithin 36 (record { re = p.re; im = p.im }) };

    ghost inverse = { λ p. record { re = p.re; im = p.im } };
}

impl Phasor {
    /// No current.
    pub fn zero() -> Phasor
        ensures { result ≡ origin }
    {
        Phasor { re: 0, im: 0 }
    }

    /// The sum of two phasors.
    pub fn plus(self, other: Phasor) -> Phasor
        requires { IsWithin 36 (plus self other) }
        ensures { result ≡ plus self other }
    {
        Phasor {
            re: self.re + other.re,
            im: self.im + other.im,
        }
    }

    /// The difference of two phasors.
    pub fn minus(self, other: Phasor) -> Phasor
        requires { IsWithin 36 (minus self other) }
        ensures { result ≡ minus self other }
    {
        Phasor {
            re: self.re - other.re,
            im: self.im - other.im,
        }
    }
}
