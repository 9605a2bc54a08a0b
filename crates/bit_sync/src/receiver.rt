ghost use Rattle.std.specs.Prelude.{◌≡◌, ◌≤◌, ◌<◌, ◌+◌, ◌*◌, ◌%◌, ◌/◌, ◌^◌, ◌++◌, ℕ, Some, List, [], length};
ghost use Rattle.std.specs.Option.{ForSome};
ghost use Rattle.ld_base.specs.Bits.{line_bits};
ghost use Rattle.c3794_frame.specs.Numbers.{AreBits, number};
ghost use Rattle.bit_sync.specs.Frames.{frames, listed, gots, is_locked};
ghost use Rattle.bit_sync.specs.StandsFor.{StandsFor, state_of};
ghost use Rattle.bit_sync.specs.Step.{Fills, FitsLock, Takes, kept, rules, rules_of, some_bits};

use crate::holding::{Taken, held, whole_frame};
use crate::hunting::hunted;
use crate::lock::Lock;
use crate::profile::Profile;
use crate::register::Register;
use crate::told::{Fed, Got, SyncState};
use ld_base::{Chunk, Words};
use std::marker::Model;

/// The bits of a frame.
const FRAME_BITS: u16 = 256;

/// Finds the frames on a line, fed in chunks of any size. It hunts for two header words 256 bits apart, and delivers the
/// frames behind the first of them while their words alternate. It keeps 272 bits at most. (This project's own rule; the
/// frame is that of IEEE C37.94.)
#[derive(Debug, Drop)]
pub struct Receiver {
    profile: Profile,
    lock: Option<Lock>,
    register: Register,
}

impl Model for Receiver {
    ghost use Rattle.bit_sync.specs.StandsFor.{Kept};

    ghost Value = { Kept };

    ghost use Rattle.bit_sync.specs.View.{IsReceiver, kept_of};

    ghost view = { kept_of };

    ghost invariant = { IsReceiver };
}

impl Receiver {
    /// A receiver for frames with that many channels and these header words. So many misses in a row end a lock. It hunts.
    pub fn new(channels: u8, words: Words, misses: u8) -> Receiver
        requires channels { (1 ≤ channels) × (channels ≤ 12) }
        requires misses { (1 ≤ misses) × (misses ≤ 10) }
        ensures rules { result.rules ≡ rules words misses channels }
        ensures empty { StandsFor result [] }
    {
        Receiver {
            profile: Profile {
                channels,
                words,
                misses,
            },
            lock: None,
            register: Register::zeros(),
        }
    }

    /// Takes in the next bits of the line, and tells the frame that ends among them, if one does, and whether there is a
    /// lock then.
    pub fn feed(&mut self, chunk: &Chunk) -> Fed
        ensures rules { self.new.rules ≡ self.old.rules }
        ensures stands { (line : List ℕ) → StandsFor self.old line → StandsFor self.new (line ++ chunk.now) }
        ensures frame { (line : List ℕ) → StandsFor self.old line
            → gots (frames self.new.rules (line ++ chunk.now)).events ≡ gots (frames self.new.rules line).events ++ listed result.frame }
        ensures locked { (line : List ℕ) → StandsFor self.old line → result.locked ≡ is_locked (frames self.new.rules (line ++ chunk.now)).place }
    {
        let frame = self.fill(&chunk.bytes(), chunk.bits());
        Fed {
            frame,
            locked: self.is_locked(),
        }
    }

    /// The state after all the bits so far.
    pub fn state(&self) -> SyncState
        ensures { (line : List ℕ) → StandsFor self.now line → result ≡ state_of line (frames self.now.rules line).place }
    {
        match self.lock {
            None => SyncState::Hunting,
            Some(lock) => SyncState::Locked {
                misses: lock.missed,
                held: lock.held,
            },
        }
    }

    // Whether there is a lock.
    fn is_locked(&self) -> bool
        ensures { (line : List ℕ) → StandsFor self.now line → result ≡ is_locked (frames self.now.rules line).place }
    {
        self.lock.is_some()
    }

    // Takes in the bits of a chunk: a whole frame as it came, and else some bits at a time.
    fn fill(&mut self, bytes: &[u8; 32], count: u16) -> Option<Got>
        requires { count ≤ 256 }
        ensures rules { self.new.rules ≡ self.old.rules }
        ensures fills { (line : List ℕ) → StandsFor self.old line → Fills self.new line (line_bits count bytes.now) result }
    {
        if count == FRAME_BITS
            && let Some(lock) = self.lock
            && lock.held == 0
        {
            return self.take_frame(bytes, lock);
        }
        self.take_bits(bytes, count)
    }

    // Takes in a whole frame where no bits of it are held.
    fn take_frame(&mut self, bytes: &[u8; 32], lock: Lock) -> Option<Got>
        requires { (self.old.lock ≡ Some lock) × (lock.held ≡ 0) }
        ensures rules { self.new.rules ≡ self.old.rules }
        ensures fills { (line : List ℕ) → StandsFor self.old line → Fills self.new line (line_bits 256 bytes.now) result }
    {
        let taken = whole_frame(&mut self.register, bytes, lock, &self.profile);
        self.lock = taken.lock;
        taken.frame
    }

    // Takes in bits, up to 32 at a time, none of them behind the end of a frame.
    fn take_bits(&mut self, bytes: &[u8; 32], count: u16) -> Option<Got>
        requires { count ≤ 256 }
        ensures rules { self.new.rules ≡ self.old.rules }
        ensures fills { (line : List ℕ) → StandsFor self.old line → Fills self.new line (line_bits count bytes.now) result }
    {
        let mut frame = None;
        let mut done = 0;
        while done < count {
            let some = next_bits(bytes, done, (count - done).min(self.room()));
            frame = self.take(some.value, some.count).or(frame);
            done += u16::from(some.count);
        }
        frame
    }

    // How many bits end no frame but the present one.
    fn room(&self) -> u16
        ensures some { (1 ≤ result) × (result ≤ 256) }
        ensures room { ForSome self.now.lock (λ l. l.held + result ≤ 256) }
    {
        match self.lock {
            None => FRAME_BITS,
            Some(lock) => FRAME_BITS - lock.held,
        }
    }

    // Takes in some bits that end no frame but the present one.
    fn take(&mut self, value: u32, count: u8) -> Option<Got>
        requires few { (1 ≤ count) × (count ≤ 32) }
        requires small { value < 2 ^ count }
        requires room { ForSome self.old.lock (λ l. l.held + count ≤ 256) }
        ensures rules { self.new.rules ≡ self.old.rules }
        ensures takes { (line group : List ℕ) → length group ≡ count → AreBits group → number group ≡ value → StandsFor self.old line → Takes self.new line group result }
    {
        let taken = took(&mut self.register, self.lock, value, count, &self.profile);
        self.lock = taken.lock;
        taken.frame
    }
}

// What some bits bring, with a lock or without one.
fn took(
    register: &mut Register,
    lock: Option<Lock>,
    value: u32,
    count: u8,
    profile: &Profile,
) -> Taken
    requires few { (1 ≤ count) × (count ≤ 32) }
    requires small { value < 2 ^ count }
    requires room { ForSome lock (λ l. l.held + count ≤ 256) }
    requires channels { (1 ≤ profile.now.channels) × (profile.now.channels ≤ 12) }
    requires misses { (1 ≤ profile.now.misses) × (profile.now.misses ≤ 10) }
    requires lock { FitsLock profile.now.misses lock }
    ensures takes { (line group : List ℕ) → length group ≡ count → AreBits group → number group ≡ value
        → let r = rules_of profile.now in
        StandsFor (kept r lock register.old) line → Takes (kept r result.lock register.new) line group result.frame }
    ensures fits { FitsLock profile.now.misses result.lock }
{
    match lock {
        None => Taken {
            frame: None,
            lock: hunted(register, value, count, &profile.words),
        },
        Some(lock) => held(register, lock, value, count, profile),
    }
}

// Some bits as a number.
#[derive(Clone, Copy, Debug, PartialEq, Eq)]
struct Bits {
    value: u32,
    count: u8,
}

// The next bits of bytes from a place on, of so many at most: four whole bytes, or else what is left of one.
fn next_bits(bytes: &[u8; 32], at: u16, most: u16) -> Bits
    requires { (1 ≤ most) × (at + most ≤ 256) }
    ensures some { (1 ≤ result.count) × (result.count ≤ 32) × (result.count ≤ most) }
    ensures number { result.value ≡ number (some_bits bytes.now at result.count) }
    ensures small { result.value < 2 ^ result.count }
{
    if at % 8 == 0 && most >= 32 {
        return Bits {
            value: four_bytes(bytes, usize::from(at / 8)),
            count: 32,
        };
    }
    let count = most.min(8 - at % 8) as u8;
    Bits {
        value: u32::from(bits_from(bytes, at, count)),
        count,
    }
}

// Four bytes as a number, the first the highest.
fn four_bytes(bytes: &[u8; 32], from: usize) -> u32
    requires { from + 4 ≤ 32 }
    ensures { result ≡ number (some_bits bytes.now (8 * from) 32) }
{
    u32::from_be_bytes([
        bytes[from],
        bytes[from + 1],
        bytes[from + 2],
        bytes[from + 3],
    ])
}

// Some bits of bytes, all of them in one byte, as a number.
fn bits_from(bytes: &[u8; 32], at: u16, count: u8) -> u8
    requires count { (1 ≤ count) × (at % 8 + count ≤ 8) }
    requires within { at < 256 }
    ensures number { result ≡ number (some_bits bytes.now at count) }
    ensures small { result < 2 ^ count }
{
    bytes[usize::from(at / 8)] << (at % 8) >> (8 - count)
}
