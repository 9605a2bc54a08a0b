//! The receiving side of a line: from bits to messages.

ghost use Rattle.std.specs.Prelude.{◌≡◌, ℕ, List, [], ◌++◌};
ghost use Rattle.ld_base.specs.declared.fields.Fields.{Fields};
ghost use Rattle.relay_core.specs.AlarmState.{yellow_after};
ghost use Rattle.relay_core.specs.Listens.{Listens, Tells};

use bit_sync::{Got, Receiver};
use ld_base::{Chunk, Message, Settings};
use payload_map::Inlet;
use relay_message::{Hunter, MessageFault};

/// Finds the frames of a line from a peer, and the messages in their payload.
#[derive(Drop)]
pub(crate) struct Listener {
    receiver: Receiver,
    inlet: Inlet,
    hunter: Hunter,
    /// Whether there is a lock.
    pub(crate) locked: bool,
    /// The yellow bit of the last good frame.
    pub(crate) yellow: bool,
}

/// What some bits complete: a frame, and a message in its payload. Also the first fault for which a place of the payload is none.
#[derive(Clone, Copy, Debug, PartialEq, Eq)]
pub(crate) struct Told {
    pub(crate) frame: Option<Got>,
    pub(crate) message: Option<Message>,
    pub(crate) refused: Option<MessageFault>,
}

impl Listener {
    /// Hears a line from its first bit on.
    pub(crate) fn new(s: &Settings) -> Listener
        ensures { Listens s.now result [] }
    {
        let fields = s.fields();
        Listener {
            receiver: Receiver::new(fields.channels, s.words(), fields.misses),
            inlet: Inlet::new(fields.channels),
            hunter: Hunter::new(),
            locked: false,
            yellow: false,
        }
    }

    /// Hears the next bits of the line.
    pub(crate) fn hear(&mut self, chunk: &Chunk) -> Told
        ensures stands { (f : Fields) (line : List ℕ) → Listens f self.old line → Listens f self.new (line ++ chunk.now) }
        ensures tells { (f : Fields) (line : List ℕ) → Listens f self.old line → Tells f line chunk.now result }
    {
        let fed = self.receiver.feed(chunk);
        self.locked = fed.locked;
        let Some(got) = fed.frame else {
            return Told {
                frame: None,
                message: None,
                refused: None,
            };
        };
        self.yellow = yellow_after(self.yellow, &got);
        let hunted = self.hunter.push(&self.inlet.take(&got));
        Told {
            frame: Some(got),
            message: hunted.message,
            refused: hunted.refused,
        }
    }
}

// The yellow bit of the last good frame, with one frame more.
fn yellow_after(yellow: bool, got: &Got) -> bool
    ensures { result ≡ yellow_after yellow got.now }
{
    match got {
        Got::Good(frame) => frame.yellow(),
        Got::Bad(_) => yellow,
    }
}
