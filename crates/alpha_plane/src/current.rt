//! The currents that are tested against each other, of any scale.

ghost use Rattle.std.specs.Prelude.{◌≡◌};
ghost use Rattle.phasor.specs.Point.{IsWithin, origin, plus, minus};
ghost use Rattle.alpha_plane.specs.Outside.{current_bits};

use phasor::Phasor;
use std::marker::Model;

/// A current in whole numbers of any scale, of one station or of several together: a phasor, or what is made of the phasors of
/// its phases. Each part lies within 2^48 either way.
#[derive(Clone, Copy, Debug, PartialEq, Eq)]
pub struct Current {
    pub re: i64,
    pub im: i64,
}

impl Model for Current {
    ghost use Rattle.phasor.specs.Point.{Point, IsWithin};

    ghost Value = { Point };

    ghost view = { λ z. record { re = z.re; im = z.im } };

    ghost invariant = { λ z. IsWithin 48 (record { re = z.re; im = z.im }) };

    ghost inverse = { λ z. record { re = z.re; im = z.im } };
}

impl Current {
    /// No current.
    pub(crate) fn zero() -> Current
        ensures { result ≡ origin }
    {
        Current { re: 0, im: 0 }
    }

    /// The sum of two currents.
    pub(crate) fn plus(self, other: Current) -> Current
        requires { IsWithin current_bits (plus self other) }
        ensures { result ≡ plus self other }
    {
        Current {
            re: self.re + other.re,
            im: self.im + other.im,
        }
    }

    /// The difference of two currents.
    pub(crate) fn minus(self, other: Current) -> Current
        requires { IsWithin current_bits (minus self other) }
        ensures { result ≡ minus self other }
    {
        Current {
            re: self.re - other.re,
            im: self.im - other.im,
        }
    }
}

impl From<Phasor> for Current {
    ghost from_gives = { λ phasor current. current ≡ phasor };

    fn from(phasor: Phasor) -> Current {
        Current {
            re: phasor.re,
            im: phasor.im,
        }
    }
}
