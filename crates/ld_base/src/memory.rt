//! Sources and sinks over memory, whose calls fail where a list says so.

ghost use Rattle.std.specs.Prelude.{◌≡◌, ℕ, List, [], Some, Ok, Err, ◌+◌, ◌-◌, ◌++◌, ◌≤◌, ◌<◌, ◌||◌, min, length, take, drop, nat_lt, if◌then◌else◌, IfOk, is_err, is_ok, OnOk};
ghost use Rattle.std.specs.Io.KnownBytes.{ReadConsumes, WriteAppends};
ghost use Rattle.ld_base.specs.Faults.{CountsFaults, next_count};
ghost use Rattle.ld_base.specs.Memory.{Supply, Store, is_listed};

use crate::{Failed, NoMemory, Sink, Source};
use std::alloc::Global;
use std::marker::Model;

/// A source over bytes. Its calls are counted from 0, and those whose count is listed fail. Every other read gives as
/// many bytes as fit.
#[derive(Drop)]
pub struct MemorySource {
    bytes: Vec<u8>,
    given: usize,
    failing: Vec<u64>,
    calls: u64,
    faults: u64,
}

impl Model for MemorySource {
    ghost Value = { Supply };

    ghost view = { λ s. record { left = drop s.given s.bytes.items; failing = s.failing.items; calls = s.calls; faults = s.faults } };

    ghost invariant = { λ s. s.given ≤ length s.bytes.items };
}

impl MemorySource {
    /// A source of these bytes, in which the calls of these counts fail.
    pub fn new(bytes: Vec<u8>, failing: Vec<u64>) -> MemorySource
        ensures { result ≡ record { left = bytes.items; failing = failing.items; calls = 0; faults = 0 } }
    {
        MemorySource {
            bytes,
            given: 0,
            failing,
            calls: 0,
            faults: 0,
        }
    }
}

impl Source for MemorySource {
    ghost end = { λ s. record { bytes = Some s.left; faults = s.faults } };

    fn read(&mut self, into: &mut [u8]) -> Result<usize, Failed>
        ensures count { IfOk result (λ n. n ≤ length into.new) }
        ensures bytes { ReadConsumes (Some self.old.left) (Some self.new.left) result into.new }
        ensures faults { CountsFaults self.old.faults self.new.faults result }
        ensures listed { is_err result ≡ is_listed self.old.failing self.old.calls }
        ensures fits { IfOk result (λ n. n ≡ min (length self.old.left) (length into.new)) }
        ensures calls { self.new.calls ≡ next_count self.old.calls }
        ensures failing { self.new.failing ≡ self.old.failing }
    {
        let call = self.calls;
        self.calls = call.saturating_add(1);
        if self.failing.contains(&call) {
            self.faults = self.faults.saturating_add(1);
            return Err(Failed);
        }
        Ok(give(&self.bytes, &mut self.given, into))
    }
}

/// A source over bytes in which no call fails.
#[derive(Drop)]
pub struct SureSource {
    bytes: Vec<u8>,
    given: usize,
}

impl Model for SureSource {
    ghost Value = { List ℕ };

    ghost view = { λ s. drop s.given s.bytes.items };

    ghost invariant = { λ s. s.given ≤ length s.bytes.items };
}

impl SureSource {
    /// A source of these bytes.
    pub fn new(bytes: Vec<u8>) -> SureSource
        ensures { result ≡ bytes.items }
    {
        SureSource { bytes, given: 0 }
    }
}

impl Source for SureSource {
    ghost end = { λ s. record { bytes = Some s; faults = 0 } };

    fn read(&mut self, into: &mut [u8]) -> Result<usize, Failed>
        ensures count { IfOk result (λ n. n ≤ length into.new) }
        ensures bytes { ReadConsumes (Some self.old) (Some self.new) result into.new }
        ensures faults { CountsFaults 0 0 result }
        ensures fits { result ≡ Ok (min (length self.old) (length into.new)) }
    {
        Ok(give(&self.bytes, &mut self.given, into))
    }
}

// As many of the bytes from `given` on as fit.
fn give(bytes: &[u8], given: &mut usize, into: &mut [u8]) -> usize
    requires { given.old ≤ length bytes.now }
    ensures count { result ≡ min (length bytes.now - given.old) (length into.new) }
    ensures given { given.new ≡ given.old + result }
    ensures bytes { take result into.new ≡ take result (drop given.old bytes.now) }
{
    let left = &bytes[*given..];
    let count = left.len().min(into.len());
    into[..count].copy_from_slice(&left[..count]);
    *given += count;
    count
}

/// A sink that keeps what is written, up to its room. Its calls are counted from 0, and those whose count is listed
/// fail, as does one whose piece is longer than the room that is left. Every other call takes its whole piece.
#[derive(Drop)]
pub struct MemorySink {
    bytes: Vec<u8>,
    room: usize,
    failing: Vec<u64>,
    calls: u64,
    faults: u64,
}

impl Model for MemorySink {
    ghost use Rattle.std.specs.Prelude.{◌≤◌, vec_len, vec_capacity};
    ghost use Rattle.ld_base.specs.Memory.{Store};

    ghost Value = { Store };

    ghost view = { λ s. record { bytes = s.bytes.items; room = s.room; failing = s.failing.items; calls = s.calls; faults = s.faults } };

    ghost invariant = { λ s. (vec_len s.bytes ≤ s.room) × (s.room ≤ vec_capacity s.bytes) };
}

impl MemorySink {
    /// An empty sink with room for that many bytes, in which the calls of these counts fail. The room is taken here, so
    /// that no write asks for memory.
    pub fn new(room: usize, failing: Vec<u64>) -> Result<MemorySink, NoMemory>
        ensures { IfOk result (λ s. s ≡ record { bytes = []; room = room; failing = failing.items; calls = 0; faults = 0 }) }
    {
        let alloc = *failing.allocator();
        match Vec::with_capacity(alloc, room) {
            Ok(bytes) => Ok(MemorySink {
                bytes,
                room,
                failing,
                calls: 0,
                faults: 0,
            }),
            Err(_) => Err(NoMemory),
        }
    }

    /// The bytes written so far.
    pub fn written(&self) -> &[u8]
        ensures { result.now ≡ self.now.bytes }
    {
        &self.bytes
    }
}

impl Sink for MemorySink {
    ghost end = { λ s. record { bytes = Some s.bytes; faults = s.faults } };

    fn write(&mut self, piece: &[u8]) -> Result<usize, Failed>
        ensures count { IfOk result (λ n. n ≤ length piece.now) }
        ensures progress { IfOk result (λ n. 0 < length piece.now → 0 < n) }
        ensures bytes { WriteAppends (Some self.old.bytes) (Some self.new.bytes) result piece.now }
        ensures faults { CountsFaults self.old.faults self.new.faults result }
        ensures listed { is_err result ≡ (is_listed self.old.failing self.old.calls || nat_lt self.old.room (length self.old.bytes + length piece.now)) }
        ensures whole { IfOk result (λ n. n ≡ length piece.now) }
        ensures calls { self.new.calls ≡ next_count self.old.calls }
        ensures kept { (self.new.failing ≡ self.old.failing) × (self.new.room ≡ self.old.room) }
    {
        let call = self.calls;
        self.calls = call.saturating_add(1);
        if self.failing.contains(&call) || self.room - self.bytes.len() < piece.len() {
            self.faults = self.faults.saturating_add(1);
            return Err(Failed);
        }
        match self.bytes.extend_from_slice(piece) {
            Ok(()) => Ok(piece.len()),
            Err(_) => unreachable!(),
        }
    }
}
