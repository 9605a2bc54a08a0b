ghost use Rattle.std.specs.Prelude.{◌≡◌, ℕ, ◌≤◌, SomeIff};

use std::marker::Model;

/// A terminal of the line, numbered from 1 to 3.
#[derive(Clone, Copy, Debug, PartialEq, Eq, PartialOrd, Ord, Hash)]
pub struct Station {
    number: u8,
}

impl Model for Station {
    ghost Value = { ℕ };

    ghost view = { λ s. s.number };

    ghost invariant = { λ s. (1 ≤ s.number) × (s.number ≤ 3) };

    ghost inverse = { λ n. record { number = n } };
}

impl Station {
    /// The station of that number. None exactly where the number is 0 or above 3.
    pub fn new(number: u8) -> Option<Station>
        ensures { SomeIff result ((1 ≤ number) × (number ≤ 3)) number }
    {
        if 1 <= number && number <= 3 {
            Some(Station { number })
        } else {
            None
        }
    }

    /// The station's number.
    pub fn get(self) -> u8
        ensures number { result ≡ self }
        ensures in_range { (1 ≤ result) × (result ≤ 3) }
    {
        self.number
    }
}

impl Default for Station {
    /// Station 1.
    fn default() -> Station
        ensures { result ≡ 1 }
    {
        Station { number: 1 }
    }
}
