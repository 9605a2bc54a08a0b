//! What goes out in a slot, told to C.

ghost use Rattle.std.specs.Prelude.{◌≡◌, map};
ghost use Rattle.relay_core.specs.Answers.{outgo_of};
ghost use Rattle.terminal_c.specs.Told.{outgo_told, TellsChanges, TellsFrames};

use crate::flat;
use crate::messages::tell_message;
use crate::sampled::tell_changes;
use arrayvec::ArrayVec;
use relay_core::{Outgoing, Slotted};

/// Tells the answer to a slot.
pub(crate) fn tell_slotted(slotted: &Slotted, told: &mut flat::Slotted)
    ensures frames { TellsFrames told.new (map outgo_of slotted.now.frames.items) }
    ensures changes { TellsChanges told.new.changes slotted.now.changes.items }
{
    tell_frames(&slotted.frames, told);
    tell_changes(&slotted.changes, &mut told.changes);
}

fn tell_outgoing(outgoing: &Outgoing, told: &mut flat::Outgoing)
    ensures { outgo_told told.new ≡ outgo_of outgoing.now }
{
    told.to = outgoing.to.get();
    told.bytes = outgoing.bytes;
    told.begins = false;
    if let Some(message) = &outgoing.begun {
        told.begins = true;
        tell_message(message, &mut told.message);
    }
}

// Tells the frames that go out.
fn tell_frames(frames: &ArrayVec<Outgoing, 2>, told: &mut flat::Slotted)
    ensures { TellsFrames told.new (map outgo_of frames.now.items) }
{
    for (place, outgoing) in frames.iter().enumerate() {
        tell_outgoing(outgoing, &mut told.frames[place]);
    }
    told.count = frames.len() as u8;
}
