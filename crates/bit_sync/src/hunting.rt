//! The hunt for a lock.

ghost use Rattle.std.specs.Prelude.{◌≡◌, ◌≢◌, ◌+◌, ◌*◌, ◌/◌, ◌%◌, ◌^◌, ◌<◌, ◌≤◌, ℕ, true, false, ◌==◌, List, length, MatchOption, None};
ghost use Rattle.ld_base.specs.Words.{AreWords};
ghost use Rattle.c3794_frame.specs.FrameOf.{word};
ghost use Rattle.c3794_frame.specs.Numbers.{AreBits, number};
ghost use Rattle.bit_sync.specs.Frames.{are_both};
ghost use Rattle.bit_sync.specs.StandsFor.{StandsFor};
ghost use Rattle.bit_sync.specs.Step.{FitsLock, IsEarliest, Takes, kept, rules, window};

use crate::lock::Lock;
use crate::register::Register;
use c3794_frame::header_word;
use ld_base::Words;

/// Takes in some bits while there is no lock, and gives the lock that is made with one of them.
pub(crate) fn hunted(register: &mut Register, value: u32, count: u8, words: &Words) -> Option<Lock>
    requires few { (1 ≤ count) × (count ≤ 32) }
    requires small { value < 2 ^ count }
    ensures takes { (misses channels : ℕ) (line group : List ℕ) → length group ≡ count → AreBits group → number group ≡ value
        → let r = rules words.now misses channels in
        StandsFor (kept r None register.old) line → Takes (kept r result register.new) line group None }
    ensures fits { (misses : ℕ) → 1 ≤ misses → FitsLock misses result }
{
    let oldest = register.push(value, count);
    let found = earliest(oldest, register.newest(), count, words);
    match found {
        None => None,
        Some((behind, odd)) => Some(Lock {
            odd,
            missed: 0,
            held: 16 + u16::from(behind),
        }),
    }
}

// The earliest lock among the last so many bits: how many bits have come since, and whether the later word is word B.
fn earliest(oldest: u64, newest: u64, count: u8, words: &Words) -> Option<(u8, bool)>
    requires { count ≤ 32 }
    ensures found { MatchOption result
        ((k : ℕ) → k < count → are_both words.now (window oldest k) (window newest k) ≡ false)
        (λ found. IsEarliest words.now oldest newest count found.0 × (found.1 ≡ (window newest found.0 == word words.now true)) × AreWords words.now) }
{
    if !has_shape(newest, count) {
        return None;
    }
    let mut k = count;
    while k > 0 {
        k -= 1;
        let first = (oldest >> k & 0xFFFF) as u16;
        let second = (newest >> k & 0xFFFF) as u16;
        if is_lock(first, second, words) {
            return Some((k, second == header_word(words, true)));
        }
    }
    None
}

// Whether the eight bits 00001111, which end each header word, stand in a number, less than so many bits from its end.
fn has_shape(newest: u64, count: u8) -> bool
    requires { count ≤ 32 }
    ensures { result ≡ false → (k : ℕ) → k < count → window newest k % 256 ≢ 15 }
{
    let ones = newest & newest >> 1 & newest >> 2 & newest >> 3;
    let zeros = newest >> 4 | newest >> 5 | newest >> 6 | newest >> 7;
    ones & !zeros & ((1 << count) - 1) != 0
}

// Whether these are one header word and the other.
fn is_lock(first: u16, second: u16, words: &Words) -> bool
    ensures both { result ≡ are_both words.now first second }
    ensures words { result ≡ true → AreWords words.now }
{
    if second & 0xFF != 0x0F {
        return false;
    }
    let word_a = header_word(words, false);
    let word_b = header_word(words, true);
    first == word_b && second == word_a || first == word_a && second == word_b
}
