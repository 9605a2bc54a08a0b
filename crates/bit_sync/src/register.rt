//! The last 272 bits of a line.

ghost use Rattle.std.specs.Prelude.{◌≡◌, ◌+◌, ◌*◌, ◌/◌, ◌%◌, ◌^◌, ◌<◌, ◌≤◌, ◌++◌, length};
ghost use Rattle.c3794_frame.specs.Numbers.{bits_of, number};

use std::marker::Model;

/// 272 bits, the oldest the highest: the sixteen oldest, and two words of 128.
#[derive(Debug, Drop)]
pub(crate) struct Register {
    oldest: u16,
    middle: u128,
    newest: u128,
}

impl Model for Register {
    ghost use Rattle.std.specs.Prelude.{ℕ};

    ghost Value = { ℕ };

    ghost use Rattle.bit_sync.specs.Register.{register};

    ghost view = { register };
}

impl Register {
    /// All bits are zeros.
    pub(crate) fn zeros() -> Register
        ensures { result ≡ 0 }
    {
        Register {
            oldest: 0,
            middle: 0,
            newest: 0,
        }
    }

    /// Takes in some bits, 1 to 32, and gives the bits from the oldest sixteen on that stand behind the newest 256 then.
    pub(crate) fn push(&mut self, value: u32, count: u8) -> u64
        requires few { (1 ≤ count) × (count ≤ 32) }
        requires small { value < 2 ^ count }
        ensures register { self.new ≡ (self.old * 2 ^ count + value) % 2 ^ 272 }
        ensures oldest { result ≡ (self.old * 2 ^ count + value) / 2 ^ 256 }
    {
        let (newest, into_middle) = pushed(self.newest, value, count);
        let (middle, into_oldest) = pushed(self.middle, into_middle, count);
        let oldest = extended(self.oldest, into_oldest, count);
        self.newest = newest;
        self.middle = middle;
        self.oldest = (oldest & 0xFFFF) as u16;
        oldest
    }

    /// The newest 64 bits.
    pub(crate) fn newest(&self) -> u64
        ensures { result ≡ self.now % 2 ^ 64 }
    {
        (self.newest & 0xFFFF_FFFF_FFFF_FFFF) as u64
    }

    /// The newest 256 bits as bytes.
    pub(crate) fn frame(&self) -> [u8; 32]
        ensures number { number (bits_of result) ≡ self.now % 2 ^ 256 }
        ensures long { length result ≡ 32 }
    {
        bytes_of(self.middle, self.newest)
    }
}

// A word with some bits, 1 to 32, pushed in, and the bits that are pushed out.
fn pushed(word: u128, value: u32, count: u8) -> (u128, u32)
    requires few { (1 ≤ count) × (count ≤ 32) }
    requires small { value < 2 ^ count }
    ensures all { word * 2 ^ count + value ≡ result.1 * 2 ^ 128 + result.0 }
    ensures word { result.0 < 2 ^ 128 }
    ensures out { result.1 < 2 ^ count }
{
    let out = (word >> (128 - count)) as u32;
    (word << count | u128::from(value), out)
}

// The oldest sixteen bits and some more behind them, 1 to 32.
fn extended(oldest: u16, value: u32, count: u8) -> u64
    requires few { (1 ≤ count) × (count ≤ 32) }
    requires small { value < 2 ^ count }
    ensures { result ≡ oldest * 2 ^ count + value }
{
    u64::from(oldest) << count | u64::from(value)
}

// The bytes of 256 bits in two words.
fn bytes_of(high: u128, low: u128) -> [u8; 32]
    ensures number { number (bits_of result) ≡ high * 2 ^ 128 + low }
    ensures small { high * 2 ^ 128 + low < 2 ^ 256 }
    ensures long { length result ≡ 32 }
{
    joined(&high.to_be_bytes(), &low.to_be_bytes())
}

// Two halves of 32 bytes.
fn joined(high: &[u8; 16], low: &[u8; 16]) -> [u8; 32]
    ensures { result ≡ high.now ++ low.now }
{
    let mut bytes = [0; 32];
    bytes[..16].copy_from_slice(high);
    bytes[16..].copy_from_slice(low);
    bytes
}
