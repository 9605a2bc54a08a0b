//! Signed numbers wide enough for the products of phasors.

ghost use Rattle.std.specs.Prelude.{◌≡◌, ◌+◌, ◌^◌, ◌<◌, ◌≤◌, ◌+ℤ◌, ◌-ℤ◌, ◌*ℤ◌, ℤ, pos, neg_ℤ, unsigned_abs, int_le};

use std::marker::Model;

/// A signed number of up to 127 bits. Each calculation names the sizes of its arguments in bits, and its clauses the
/// size of its result, so that a chain of them is seen to fit.
#[derive(Clone, Copy, Debug, PartialEq, Eq)]
pub struct Wide {
    value: i128,
}

impl Model for Wide {
    ghost Value = { ℤ };

    ghost view = { λ w. w.value };

    ghost inverse = { λ z. record { value = z } };
}

impl Wide {
    /// The sum of two numbers of at most K bits.
    #[tactic(auto, using(crate::proofs::Sizes::sizes, crate::proofs::Sizes::in_128))]
    pub fn plus<const K: u32>(self, other: Wide) -> Wide
        requires fits { K < 126 }
        requires left { unsigned_abs self ≤ 2 ^ K }
        requires right { unsigned_abs other ≤ 2 ^ K }
        ensures value { result ≡ self +ℤ other }
        ensures size { unsigned_abs result ≤ 2 ^ (K + 1) }
    {
        Wide {
            value: self.value + other.value,
        }
    }

    /// The difference of two numbers of at most K bits.
    #[tactic(auto, using(crate::proofs::Sizes::sizes, crate::proofs::Sizes::in_128))]
    pub fn minus<const K: u32>(self, other: Wide) -> Wide
        requires fits { K < 126 }
        requires left { unsigned_abs self ≤ 2 ^ K }
        requires right { unsigned_abs other ≤ 2 ^ K }
        ensures value { result ≡ self -ℤ other }
        ensures size { unsigned_abs result ≤ 2 ^ (K + 1) }
    {
        Wide {
            value: self.value - other.value,
        }
    }

    /// The product of a number of at most M bits and one of at most N.
    #[tactic(auto, using(crate::proofs::Sizes::sizes, crate::proofs::Sizes::in_128))]
    pub fn times<const M: u32, const N: u32>(self, other: Wide) -> Wide
        requires fits { M + N < 127 }
        requires left { unsigned_abs self ≤ 2 ^ M }
        requires right { unsigned_abs other ≤ 2 ^ N }
        ensures value { result ≡ self *ℤ other }
        ensures size { unsigned_abs result ≤ 2 ^ (M + N) }
    {
        Wide {
            value: self.value * other.value,
        }
    }

    /// The number with the other sign.
    pub fn negated(self) -> Wide
        requires { unsigned_abs self < 2 ^ 127 }
        ensures value { result ≡ neg_ℤ self }
        ensures size { unsigned_abs result ≡ unsigned_abs self }
    {
        Wide { value: -self.value }
    }

    /// The number without its sign, as a wide number again.
    pub fn absolute(self) -> Wide
        requires { unsigned_abs self < 2 ^ 127 }
        ensures value { result ≡ pos (unsigned_abs self) }
        ensures size { unsigned_abs result ≡ unsigned_abs self }
    {
        Wide {
            value: self.value.abs(),
        }
    }

    /// Whether it is no greater than the other.
    pub fn is_at_most(self, other: Wide) -> bool
        ensures { result ≡ int_le self other }
    {
        self.value <= other.value
    }
}

impl From<i64> for Wide {
    ghost from_gives = { λ value wide. wide ≡ value };

    fn from(value: i64) -> Wide {
        Wide {
            value: i128::from(value),
        }
    }
}
