ghost use Rattle.std.specs.Prelude.{◌≡◌, ◌≢◌, ◌≤◌, SomeIff};
ghost use Rattle.ld_base.specs.Words.{AreWords};

use std::marker::Model;

/// The two header words of a line: word A is `a * 256 + 15` and word B is `b * 256 + 15`, so each begins with a 1 and
/// ends in 00001111.
#[derive(Clone, Copy, Debug, PartialEq, Eq, Hash)]
pub struct Words {
    pub a: u8,
    pub b: u8,
}

impl Model for Words {
    ghost use Rattle.ld_base.specs.Words.{AreWords, HeaderWords};

    ghost Value = { HeaderWords };

    ghost view = { λ w. record { a = w.a; b = w.b } };

    ghost invariant = { λ w. AreWords (record { a = w.a; b = w.b }) };

    ghost inverse = { λ w. record { a = w.a; b = w.b } };
}

impl Words {
    /// The words of these two numbers. None exactly where one is below 128 or both are equal.
    pub fn new(a: u8, b: u8) -> Option<Words>
        ensures { SomeIff result ((128 ≤ a) × (128 ≤ b) × (a ≢ b)) (record { a = a; b = b }) }
    {
        if a < 128 || b < 128 || a == b {
            return None;
        }
        Some(Words { a, b })
    }

    /// The numbers of word A and word B, each at least 128, which differ.
    pub fn numbers(&self) -> (u8, u8)
        ensures numbers { (result.0 ≡ self.now.a) × (result.1 ≡ self.now.b) }
        ensures words { AreWords self.now }
    {
        (self.a, self.b)
    }
}
