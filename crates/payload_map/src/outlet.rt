ghost use Rattle.std.specs.Prelude.{◌≡◌, ◌≤◌, ◌<◌, ◌↔◌, ℕ, List, [], ◌∷◌, ◌++◌, length, take, drop, IsTrue, IsErr, OnOk, OnErr, Option, Some, None};
ghost use Rattle.ld_base.specs.Words.{HeaderWords};
ghost use Rattle.c3794_frame.specs.Numbers.{bits_of};
ghost use Rattle.payload_map.specs.Outlet.{StandsFor};
ghost use Rattle.payload_map.specs.Sent.{Slot, sent};

use c3794_frame::encode_into;
use ld_base::Words;
use std::marker::Model;

// The bytes of a message.
const MESSAGE_BYTES: usize = 36;

/// A message is in flight, so no other can be loaded.
#[derive(Clone, Copy, Debug, PartialEq, Eq)]
pub struct Busy;

/// Puts messages into the frames of a line, a byte a channel in each slot. Between messages it sends idle bytes, 0xFF, and
/// the header words alternate from word A on.
#[derive(Drop)]
pub struct Outlet {
    channels: u8,
    words: Words,
    odd: bool,
    // The last message that was loaded with twelve idle bytes behind it, and how many of its bytes are sent.
    message: [u8; 48],
    sent: usize,
}

impl Model for Outlet {
    ghost use Rattle.std.specs.Prelude.{◌≡◌, ◌≤◌, drop, length, replicate, take};
    ghost use Rattle.payload_map.specs.Outlet.{Sender};

    ghost Value = { Sender };

    ghost view = { λ o. record { channels = o.channels; words = o.words; odd = o.odd; left = drop o.sent (take 36 o.message) } };

    ghost invariant = { λ o. (1 ≤ o.channels) × (o.channels ≤ 12) × (o.sent ≤ 36) × (length o.message ≡ 48) × (drop 36 o.message ≡ replicate 12 255) };
}

impl Outlet {
    /// An outlet before its first slot.
    pub fn new(channels: u8, words: Words) -> Outlet
        requires { (1 ≤ channels) × (channels ≤ 12) }
        ensures { StandsFor result channels words [] None }
    {
        Outlet {
            channels,
            words,
            odd: false,
            message: [0xFF; 48],
            sent: MESSAGE_BYTES,
        }
    }

    /// Whether a message is in flight: from its `load` until the slot that carries its last byte.
    pub fn in_flight(&self) -> bool
        ensures { IsTrue result ↔ (0 < length self.now.left) }
    {
        self.sent < MESSAGE_BYTES
    }

    /// Loads the bytes of a message, the first of which goes with the next slot. `Busy` exactly where a message is in
    /// flight; then nothing changes.
    pub fn load(&mut self, bytes: [u8; 36]) -> Result<(), Busy>
        ensures busy { IsErr result ↔ (0 < length self.old.left) }
        ensures same { OnErr result (self.new ≡ self.old) }
        ensures stands { OnOk result ((channels : ℕ) (words : HeaderWords) (slots : List (Slot (List ℕ))) (loaded : Option (List ℕ))
            → StandsFor self.old channels words slots loaded → StandsFor self.new channels words slots (Some bytes)) }
    {
        if self.in_flight() {
            return Err(Busy);
        }
        self.message[..MESSAGE_BYTES].copy_from_slice(&bytes);
        self.sent = 0;
        Ok(())
    }

    /// The next frame: the next bytes of the message in flight, one a channel, filled up with 0xFF.
    pub fn slot(&mut self, yellow: bool) -> [u8; 32]
        ensures sent { (channels : ℕ) (words : HeaderWords) (slots : List (Slot (List ℕ))) (loaded : Option (List ℕ))
            → StandsFor self.old channels words slots loaded
            → sent words channels (slots ++ record { loaded = loaded; yellow = yellow } ∷ []) ≡ sent words channels slots ++ bits_of result ∷ [] }
        ensures stands { (channels : ℕ) (words : HeaderWords) (slots : List (Slot (List ℕ))) (loaded : Option (List ℕ))
            → StandsFor self.old channels words slots loaded
            → StandsFor self.new channels words (slots ++ record { loaded = loaded; yellow = yellow } ∷ []) None }
    {
        let mut frame = [0; 32];
        self.slot_into(yellow, &mut frame);
        frame
    }

    /// The same, written over all that was in `frame`.
    pub fn slot_into(&mut self, yellow: bool, frame: &mut [u8; 32])
        ensures sent { (channels : ℕ) (words : HeaderWords) (slots : List (Slot (List ℕ))) (loaded : Option (List ℕ))
            → StandsFor self.old channels words slots loaded
            → sent words channels (slots ++ record { loaded = loaded; yellow = yellow } ∷ []) ≡ sent words channels slots ++ bits_of frame.new ∷ [] }
        ensures stands { (channels : ℕ) (words : HeaderWords) (slots : List (Slot (List ℕ))) (loaded : Option (List ℕ))
            → StandsFor self.old channels words slots loaded
            → StandsFor self.new channels words (slots ++ record { loaded = loaded; yellow = yellow } ∷ []) None }
    {
        let channels = usize::from(self.channels);
        let words = self.words;
        let next = &self.message[self.sent..self.sent + channels];
        encode_into(self.odd, yellow, next, &words, frame);
        self.sent = (self.sent + channels).min(MESSAGE_BYTES);
        self.odd = !self.odd;
    }
}
