ghost use Rattle.std.specs.Prelude.{◌≡◌, ℕ, ◌≤◌, SomeIff};
ghost use Rattle.ld_base.specs.Ticks.{last_stamp};

use std::marker::Model;

/// The last stamp that a clock can show, in ticks. A tick is one microsecond.
const LAST_STAMP: u64 = 2_000_000_000_000;

/// A clock's stamp in ticks, from 0 to `LAST_STAMP`.
#[derive(Clone, Copy, Debug, PartialEq, Eq, PartialOrd, Ord, Hash)]
pub struct Ticks {
    count: u64,
}

impl Model for Ticks {
    ghost Value = { ℕ };

    ghost view = { λ t. t.count };

    ghost invariant = { λ t. t.count ≤ last_stamp };

    ghost inverse = { λ n. record { count = n } };
}

impl Ticks {
    /// The stamp of that many ticks. None exactly where the count is above `LAST_STAMP`.
    pub fn new(count: u64) -> Option<Ticks>
        ensures { SomeIff result (count ≤ last_stamp) count }
    {
        if count <= LAST_STAMP {
            Some(Ticks { count })
        } else {
            None
        }
    }

    /// The count of ticks.
    pub fn get(self) -> u64
        ensures count { result ≡ self }
        ensures in_range { result ≤ last_stamp }
    {
        self.count
    }
}
