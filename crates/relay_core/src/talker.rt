//! The sending side of a line: from messages to frames.

ghost use Rattle.std.specs.Prelude.{◌≡◌, List, [], None, Option, Some, true};
ghost use Rattle.ld_base.specs.Message.{Contents};
ghost use Rattle.ld_base.specs.declared.fields.Fields.{Fields};
ghost use Rattle.payload_map.specs.Sent.{Slot};
ghost use Rattle.relay_core.specs.Sent.{can_begin};
ghost use Rattle.relay_core.specs.Talks.{Begins, Speaks, Talks};

use ld_base::{Message, Settings};
use payload_map::Outlet;
use relay_message::encode;

/// Puts messages into the frames of a line to a peer, each sample's once.
#[derive(Drop)]
pub(crate) struct Talker {
    outlet: Outlet,
    // The least number above that of the last message that began.
    next: u64,
}

impl Talker {
    /// Before the first slot.
    pub(crate) fn new(s: &Settings) -> Talker
        ensures { Talks s.now result [] }
    {
        Talker {
            outlet: Outlet::new(s.fields().channels, s.words()),
            next: 0,
        }
    }

    /// Writes the frame of the next slot over all that was in `frame`. Before it a message has begun, or none did.
    pub(crate) fn slot(&mut self, yellow: bool, frame: &mut [u8; 32])
        ensures { (f : Fields) (slots : List (Slot Contents)) (ready begun : Option Contents) → Begins f self.old slots ready begun
            → Speaks f self.new slots ready yellow (record { bytes = frame.new; begun = begun }) }
    {
        self.outlet.slot_into(yellow, frame);
    }

    /// Whether a message is in flight. Then none begins with the next slot, whichever is ready.
    pub(crate) fn in_flight(&self) -> bool
        ensures { (f : Fields) (slots : List (Slot Contents)) (ready : Option Contents) → Talks f self.now slots → result ≡ true
            → Begins f self.now slots ready None }
    {
        self.outlet.in_flight()
    }

    /// Whether a message of that number can begin with the next slot.
    pub(crate) fn takes(&self, number: u32) -> bool
        ensures { (f : Fields) (slots : List (Slot Contents)) → Talks f self.now slots → result ≡ can_begin f.channels slots number }
    {
        if self.outlet.in_flight() {
            return false;
        }
        self.next <= u64::from(number)
    }

    /// Loads a message that can begin with the next slot.
    pub(crate) fn begin(&mut self, message: &Message)
        ensures { (f : Fields) (slots : List (Slot Contents)) → Talks f self.old slots → can_begin f.channels slots message.now.number ≡ true
            → Begins f self.new slots (Some message.now) (Some message.now) }
    {
        let _ = self.outlet.load(encode(message));
        self.next = u64::from(message.number) + 1;
    }
}
