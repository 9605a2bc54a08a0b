//! Directed lines that carry frames.

ghost use Rattle.std.specs.Prelude.{◌≡◌, ℕ, ◌<◌, ◌≤◌, Option, None, Some, Ok};
ghost use Rattle.ld_base.specs.Bits.{line_bits};
ghost use Rattle.ld_base.specs.Faults.{CountsFaults, CountsSendFaults};
ghost use Rattle.ld_base.specs.Script.{QuietBy, Script, SendsBy, TakesBy};
ghost use Rattle.ld_base.specs.Ticks.{last_asked};

use crate::{Chunk, Failed};

/// Why a frame was not sent.
#[derive(Clone, Copy, Debug, PartialEq, Eq)]
pub enum WireError {
    /// The wire failed, and counted it.
    Failed,
    /// Memory was refused.
    NoMemory,
}

/// One directed line. Nothing is assumed of the bits that it gives.
pub trait Wire: Drop {
    /// How many calls have failed. The count stays at the end of a `u64`.
    ghost faults: { Self → ℕ };

    /// The next tick from a tick on at which a `take` may fail or give a chunk.
    ghost next_tick: { Self → ℕ → ℕ };

    /// The rules and the queue, where the wire tells them.
    ghost script: { Self → Option Script } = { λ _. None };

    /// Sends the 256 bits of a frame at a true tick.
    fn send(&mut self, at: u64, frame: &[u8; 32]) -> Result<(), WireError>
        requires { at ≤ last_asked }
        ensures faults { CountsSendFaults (faults self.old) (faults self.new) result }
        ensures script { (told : Script) → script self.old ≡ Some told
            → SendsBy told (script self.new) at (line_bits 256 frame.now) result };

    /// Takes the next chunk that has come by a true tick, where there is one.
    fn take(&mut self, at: u64) -> Result<Option<Chunk>, Failed>
        requires { at ≤ last_asked }
        ensures faults { CountsFaults (faults self.old) (faults self.new) result }
        ensures quiet { (from : ℕ) → from ≤ at → at < next_tick self.old from
            → (result ≡ Ok None) × (self.new ≡ self.old) }
        ensures script { (told : Script) → script self.old ≡ Some told
            → TakesBy told (script self.new) at result };

    /// The wire's next tick, which is not before this one. A `take` at any tick from this one up to and without that one
    /// gives no chunk and changes nothing, as long as nothing is sent.
    fn quiet_until(&self, at: u64) -> u64
        requires { at ≤ last_asked }
        ensures next { result ≡ next_tick self.now at }
        ensures script { (told : Script) → script self.now ≡ Some told → QuietBy told at result }
        ensures later { at ≤ result };
}
