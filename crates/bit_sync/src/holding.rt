//! The frames of a lock.

ghost use Rattle.std.specs.Prelude.{◌≡◌, ◌+◌, ◌*◌, ◌/◌, ◌%◌, ◌^◌, ◌<◌, ◌≤◌, ◌==◌, ◌-◌, ◌++◌, ℕ, Bool, List, length, drop, nat_le, Option, Some, if◌then◌else◌};
ghost use Rattle.c3794_frame.specs.FrameOf.{header_of, word};
ghost use Rattle.c3794_frame.specs.Numbers.{AreBits, bits_of, number};
ghost use Rattle.bit_sync.specs.Frames.{got, got_if, missed_after};
ghost use Rattle.bit_sync.specs.StandsFor.{StandsFor};
ghost use Rattle.bit_sync.specs.Step.{FitsLock, Takes, kept, lock_after, rules_of};

use crate::lock::Lock;
use crate::profile::Profile;
use crate::register::Register;
use crate::told::Got;
use c3794_frame::{FrameFault, decode, header_word};
use ld_base::Words;

/// What some bits bring: the frame that ends with them, and the lock after them.
#[derive(Clone, Copy, Debug, PartialEq, Eq)]
pub(crate) struct Taken {
    pub(crate) frame: Option<Got>,
    pub(crate) lock: Option<Lock>,
}

/// Takes in some bits that end the present frame or are less than that.
pub(crate) fn held(
    register: &mut Register,
    lock: Lock,
    value: u32,
    count: u8,
    profile: &Profile,
) -> Taken
    requires few { (1 ≤ count) × (count ≤ 32) }
    requires small { value < 2 ^ count }
    requires room { lock.held + count ≤ 256 }
    requires channels { (1 ≤ profile.now.channels) × (profile.now.channels ≤ 12) }
    requires misses { (lock.missed < profile.now.misses) × (profile.now.misses ≤ 10) }
    ensures takes { (line group : List ℕ) → length group ≡ count → AreBits group → number group ≡ value
        → let r = rules_of profile.now in
        StandsFor (kept r (Some lock) register.old) line → Takes (kept r result.lock register.new) line group result.frame }
    ensures fits { FitsLock profile.now.misses result.lock }
{
    register.push(value, count);
    let held = lock.held + u16::from(count);
    if held < 256 {
        return Taken {
            frame: None,
            lock: Some(Lock {
                odd: lock.odd,
                missed: lock.missed,
                held,
            }),
        };
    }
    let frame = register.frame();
    whole_frame(register, &frame, lock, profile)
}

/// Takes the whole present frame. Where the lock ends with it, the register is emptied, and else it stays.
pub(crate) fn whole_frame(
    register: &mut Register,
    frame: &[u8; 32],
    lock: Lock,
    profile: &Profile,
) -> Taken
    requires channels { (1 ≤ profile.now.channels) × (profile.now.channels ≤ 12) }
    requires misses { (lock.missed < profile.now.misses) × (profile.now.misses ≤ 10) }
    ensures takes { (before : ℕ) (line group : List ℕ) → AreBits group → lock.held + length group ≡ 256 → 0 < length group
        → drop (length line - lock.held) (line ++ group) ≡ bits_of frame.now
        → let r = rules_of profile.now in
        StandsFor (kept r (Some lock) before) line → Takes (kept r result.lock register.new) line group result.frame }
    ensures fits { FitsLock profile.now.misses result.lock }
{
    let judged = judged(frame, lock, profile);
    match judged.lock {
        None => {
            *register = Register::zeros();
            Taken {
                frame: Some(judged.got),
                lock: None,
            }
        }
        Some(next) => Taken {
            frame: Some(judged.got),
            lock: Some(next),
        },
    }
}

/// What a frame brings: what is got of it, and the lock after it.
#[derive(Clone, Copy, Debug, PartialEq, Eq)]
pub(crate) struct Ended {
    pub(crate) got: Got,
    pub(crate) lock: Option<Lock>,
}

/// Judges the bits of a whole frame by the lock.
pub(crate) fn judged(frame: &[u8; 32], lock: Lock, profile: &Profile) -> Ended
    requires channels { (1 ≤ profile.now.channels) × (profile.now.channels ≤ 12) }
    requires misses { (lock.missed < profile.now.misses) × (profile.now.misses ≤ 10) }
    ensures got { result.got ≡ got (rules_of profile.now) lock.odd (bits_of frame.now) }
    ensures lock { result.lock ≡ lock_after profile.now.misses lock.odd (missed_after (rules_of profile.now) lock.odd (bits_of frame.now) lock.missed) }
    ensures fits { FitsLock profile.now.misses result.lock }
{
    let expected = is_expected(frame, lock.odd, &profile.words);
    Ended {
        got: got_of(frame, expected, profile.channels, &profile.words),
        lock: lock_after(lock, expected, profile.misses),
    }
}

// Whether the frame begins with the word.
fn is_expected(frame: &[u8; 32], odd: bool, words: &Words) -> bool
    ensures { result ≡ (header_of (bits_of frame.now) == word words.now odd) }
{
    u16::from_be_bytes([frame[0], frame[1]]) == header_word(words, odd)
}

// What is got of a frame with or without its expected word.
fn got_of(frame: &[u8; 32], expected: bool, channels: u8, words: &Words) -> Got
    requires { (1 ≤ channels) × (channels ≤ 12) }
    ensures { result ≡ got_if expected words.now channels (bits_of frame.now) }
{
    if !expected {
        return Got::Bad(FrameFault::Header);
    }
    match decode(frame, channels, words) {
        Ok(frame) => Got::Good(frame),
        Err(fault) => Got::Bad(fault),
    }
}

// The lock after a frame with or without its expected word.
fn lock_after(lock: Lock, expected: bool, misses: u8) -> Option<Lock>
    requires { (lock.missed < misses) × (misses ≤ 10) }
    ensures lock { result ≡ lock_after misses lock.odd (if expected then 0 else lock.missed + 1) }
    ensures fits { FitsLock misses result }
{
    let missed = if expected { 0 } else { lock.missed + 1 };
    if missed >= misses {
        None
    } else {
        Some(Lock {
            odd: !lock.odd,
            missed,
            held: 0,
        })
    }
}
