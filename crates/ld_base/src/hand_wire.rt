//! A wire whose chunks are handed to it beforehand.

ghost use Rattle.std.specs.Prelude.{◌≡◌, ℕ, ◌<◌, ◌≤◌, Option, None, Ok, Some, is_err, IfOk, OnErr};
ghost use Rattle.ld_base.specs.Bits.{line_bits};
ghost use Rattle.ld_base.specs.Faults.{CountsFaults, CountsSendFaults, next_count};
ghost use Rattle.ld_base.specs.Memory.{Hand, is_listed, given_at, left_at};
ghost use Rattle.ld_base.specs.Script.{QuietBy, Script, SendsBy, TakesBy};

use crate::{Chunk, Failed, Wire, WireError};
use std::marker::Model;

/// A wire over a list of chunks. A `take` gives the first one that isn't yet given, if its tick is not later. Sends and
/// takes are counted from 0, each by itself, and those whose count is listed fail. What is sent goes nowhere.
#[derive(Drop)]
pub struct HandWire {
    chunks: Vec<(u64, Chunk)>,
    given: usize,
    failsend: Vec<u64>,
    failtake: Vec<u64>,
    sends: u64,
    takes: u64,
    faults: u64,
}

impl Model for HandWire {
    ghost use Rattle.std.specs.Prelude.{◌≤◌, length, drop};
    ghost use Rattle.ld_base.specs.Memory.{Hand};

    ghost Value = { Hand };

    ghost view = { λ w. record { left = drop w.given w.chunks.items; failsend = w.failsend.items; failtake = w.failtake.items; sends = w.sends; takes = w.takes; faults = w.faults } };

    ghost invariant = { λ w. w.given ≤ length w.chunks.items };
}

impl HandWire {
    /// A wire of these chunks, in which the sends and the takes of these counts fail.
    pub fn new(chunks: Vec<(u64, Chunk)>, failsend: Vec<u64>, failtake: Vec<u64>) -> HandWire
        ensures { result ≡ record { left = chunks.items; failsend = failsend.items; failtake = failtake.items; sends = 0; takes = 0; faults = 0 } }
    {
        HandWire {
            chunks,
            given: 0,
            failsend,
            failtake,
            sends: 0,
            takes: 0,
            faults: 0,
        }
    }

    // The first chunk that is left, where its tick isn't later.
    fn next(&mut self, at: u64) -> Option<Chunk>
        ensures chunk { result ≡ given_at self.old.left at }
        ensures left { self.new ≡ record self.old { left = left_at self.old.left at } }
    {
        let (tick, chunk) = *self.chunks.get(self.given)?;
        if tick > at {
            return None;
        }
        self.given += 1;
        Some(chunk)
    }
}

impl Wire for HandWire {
    ghost faults = { λ w. w.faults };

    ghost next_tick = { λ _ at. at };

    fn send(&mut self, at: u64, frame: &[u8; 32]) -> Result<(), WireError>
        ensures faults { CountsSendFaults self.old.faults self.new.faults result }
        ensures script { (told : Script) → None ≡ Some told → SendsBy told None at (line_bits 256 frame.now) result }
        ensures listed { is_err result ≡ is_listed self.old.failsend self.old.sends }
        ensures after { self.new ≡ record self.old { sends = next_count self.old.sends; faults = self.new.faults } }
    {
        let send = self.sends;
        self.sends = send.saturating_add(1);
        if self.failsend.contains(&send) {
            self.faults = self.faults.saturating_add(1);
            return Err(WireError::Failed);
        }
        Ok(())
    }

    fn take(&mut self, at: u64) -> Result<Option<Chunk>, Failed>
        ensures faults { CountsFaults self.old.faults self.new.faults result }
        ensures quiet { (from : ℕ) → from ≤ at → at < from → (result ≡ Ok None) × (self.new ≡ self.old) }
        ensures script { (told : Script) → None ≡ Some told → TakesBy told None at result }
        ensures listed { is_err result ≡ is_listed self.old.failtake self.old.takes }
        ensures chunk { IfOk result (λ chunk. (chunk ≡ given_at self.old.left at) × (self.new.left ≡ left_at self.old.left at)) }
        ensures kept { OnErr result (self.new.left ≡ self.old.left) }
        ensures after { self.new ≡ record self.old { left = self.new.left; takes = next_count self.old.takes; faults = self.new.faults } }
    {
        let take = self.takes;
        self.takes = take.saturating_add(1);
        if self.failtake.contains(&take) {
            self.faults = self.faults.saturating_add(1);
            return Err(Failed);
        }
        Ok(self.next(at))
    }

    fn quiet_until(&self, at: u64) -> u64
        ensures next { result ≡ at }
        ensures script { (told : Script) → None ≡ Some told → QuietBy told at result }
        ensures later { at ≤ result }
    {
        at
    }
}
