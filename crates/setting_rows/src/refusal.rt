//! Why a row isn't taken in, and why a text isn't read.

ghost use Rattle.std.specs.Prelude.{◌≡◌};
ghost use Rattle.setting_rows.specs.Refusals.{misread_at};

use ld_base::{NoMemory, Reason};

/// Why a row wasn't taken in.
#[derive(Clone, Copy, Debug, PartialEq, Eq)]
pub enum Refusal {
    /// Memory was refused.
    NoMemory,
    /// The row breaks this rule and none of a lesser number.
    Breaks(Reason),
}

/// Why a text was not read.
#[derive(Clone, Copy, Debug, PartialEq, Eq)]
pub enum Misread {
    /// Memory was refused.
    NoMemory,
    /// The first row, counted from 1, that breaks a rule, and the least rule that it breaks.
    Bad { row: u64, reason: Reason },
}

impl Refusal {
    /// Why a text is not read whose row of that number is refused.
    pub fn at(self, row: u64) -> Misread
        ensures { result ≡ misread_at row self }
    {
        match self {
            Refusal::NoMemory => Misread::NoMemory,
            Refusal::Breaks(reason) => Misread::Bad { row, reason },
        }
    }
}

impl From<NoMemory> for Misread {
    ghost use Rattle.std.specs.Prelude.{◌≡◌};
    ghost use Rattle.setting_rows.specs.declared.refusal.Misread.TheVariants as misread;

    ghost from_gives = { λ _ m. m ≡ misread.NoMemory };

    fn from(_: NoMemory) -> Misread {
        Misread::NoMemory
    }
}
