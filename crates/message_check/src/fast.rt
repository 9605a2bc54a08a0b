ghost use Rattle.std.specs.Prelude.{◌≡◌, ◌*◌, ◌^◌, ◌++◌, List, ℕ, bit_xor};
ghost use Rattle.std.specs.List.{concat};
ghost use Rattle.message_check.specs.Check.{IsCheck, check_of, dividend, divisor, polynomial};
ghost use Rattle.message_check.specs.Polynomials.{IsRemainder};

use crate::table::remainder_of;

/// The check of some bytes, four at a time, by a table of the remainders of each byte.
pub fn check_fast(bytes: &[u8]) -> u32
    ensures remainder { IsCheck bytes.now result }
    ensures value { result ≡ check_of bytes.now }
{
    let (words, rest) = bytes.as_chunks::<4>();
    !after_bytes(after_words(u32::MAX, words), rest)
}

// The remainder with some words of four bytes more.
fn after_words(remainder: u32, words: &[[u8; 4]]) -> u32
    ensures { (front : List ℕ) → IsRemainder 32 divisor (dividend front) remainder
        → IsRemainder 32 divisor (dividend (front ++ concat words.now)) result }
{
    let mut remainder = remainder;
    for word in words {
        remainder = after_word(remainder, word);
    }
    remainder
}

// The remainder with some bytes more.
fn after_bytes(remainder: u32, bytes: &[u8]) -> u32
    ensures { (front : List ℕ) → IsRemainder 32 divisor (dividend front) remainder
        → IsRemainder 32 divisor (dividend (front ++ bytes.now)) result }
{
    let mut remainder = remainder;
    for byte in bytes {
        remainder = times_x_8(remainder ^ (u32::from(*byte) << 24));
    }
    remainder
}

// The remainder with four bytes more.
fn after_word(remainder: u32, word: &[u8; 4]) -> u32
    ensures { (front : List ℕ) → IsRemainder 32 divisor (dividend front) remainder
        → IsRemainder 32 divisor (dividend (front ++ word.now)) result }
{
    let first = times_x_8(remainder ^ u32::from_be_bytes(*word));
    let second = times_x_8(first);
    let third = times_x_8(second);
    times_x_8(third)
}

// The remainder of a remainder times x^8.
fn times_x_8(remainder: u32) -> u32
    ensures { IsRemainder 32 divisor (remainder * 2 ^ 8) result }
{
    ((remainder & 0x00FF_FFFF) << 8) ^ remainder_of((remainder >> 24) as u8)
}
