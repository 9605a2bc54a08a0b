//! What a chunk brings, as lines.

ghost use Rattle.std.specs.Prelude.{◌≡◌, ◌≤◌, ◌++◌, ℕ, List, Option, length, OnOk};
ghost use Rattle.std.specs.Option.{ForSome};
ghost use Rattle.bit_sync.specs.Frames.{frames, gained};
ghost use Rattle.bit_sync.specs.StandsFor.{StandsFor};
ghost use Rattle.relay_message.specs.Hunter.{StandsFor as HuntsFor};
ghost use Rattle.relay_message.specs.Reading.{relay_layout};
ghost use Rattle.bench_cmd.specs.FrameLines.{whole_bytes};
ghost use Rattle.bench_cmd.specs.FramesText.{event_lines, frame_lines, payload_of};
ghost use Rattle.bench_cmd.specs.Gains.{begin_of, payload_among, place_at};

use crate::frame_lines::{whole_bytes, write_got, write_hunted, write_lock, write_lost};
use bit_sync::laws::places_on_a_line;
use bit_sync::{Got, Receiver, SyncState};
use ld_base::NoMemory;
use payload_map::Inlet;
use relay_message::Hunter;

/// The bits of a header word, with which a lock is made.
const HEADER_BITS: u64 = 16;

/// The bits of a frame.
const FRAME_BITS: u64 = 256;

/// The bit at which the present frame begins, where there is a lock after so many bits.
pub(crate) fn begin_of(receiver: &Receiver, fed: u64) -> Option<u64>
    ensures begin { (line : List ℕ) → StandsFor receiver.now line → length line ≡ fed → result ≡ begin_of (frames receiver.now.rules line).place }
    ensures within { ForSome result (λ at. at ≤ fed) }
{
    places_on_a_line();
    match receiver.state() {
        SyncState::Hunting => None,
        SyncState::Locked { held, .. } => Some(fed.saturating_sub(u64::from(held))),
    }
}

/// Appends the lines of what a chunk brought, by where the present frame began before it and begins after it.
#[tactic(auto, unfolding(crate::specs::FramesText::event_lines))]
pub(crate) fn write_gained(
    text: &mut Vec<u8>,
    inlet: &mut Inlet,
    hunter: &mut Hunter,
    before: Option<u64>,
    after: Option<u64>,
    frame: Option<Got>,
) -> Result<(), NoMemory>
    requires before { ForSome before (λ at. at ≤ 1000000000000) }
    requires after { ForSome after (λ at. at ≤ 1000000000000) }
    ensures text { OnOk result ((payload : List (Option ℕ)) → HuntsFor relay_layout hunter.old payload
        → text.new.items ≡ text.old.items ++ event_lines inlet.old (gained (place_at before) (place_at after) frame) payload) }
    ensures hunter { OnOk result ((payload : List (Option ℕ)) → HuntsFor relay_layout hunter.old payload
        → HuntsFor relay_layout hunter.new (payload ++ payload_among inlet.old (gained (place_at before) (place_at after) frame))) }
    ensures inlet { inlet.new ≡ inlet.old }
{
    match (before, after, frame) {
        (None, Some(at), None) => write_lock(text, at + HEADER_BITS),
        (None, Some(at), Some(got)) => {
            write_lock(text, at.saturating_sub(FRAME_BITS - HEADER_BITS))?;
            write_frame(text, inlet, hunter, at, &got)
        }
        (Some(at), Some(_), Some(got)) => write_frame(text, inlet, hunter, at + FRAME_BITS, &got),
        (Some(at), None, Some(got)) => {
            write_frame(text, inlet, hunter, at + FRAME_BITS, &got)?;
            write_lost(text, at + FRAME_BITS)
        }
        _ => Ok(()),
    }
}

// Appends the lines of a frame that ended with so many bits, and of what it tells of messages.
fn write_frame(
    text: &mut Vec<u8>,
    inlet: &mut Inlet,
    hunter: &mut Hunter,
    at: u64,
    got: &Got,
) -> Result<(), NoMemory>
    requires { at ≤ 1000000001000 }
    ensures text { OnOk result ((payload : List (Option ℕ)) → HuntsFor relay_layout hunter.old payload
        → text.new.items ≡ text.old.items ++ frame_lines inlet.old (whole_bytes at) got.now payload) }
    ensures hunter { (payload : List (Option ℕ)) → HuntsFor relay_layout hunter.old payload
        → HuntsFor relay_layout hunter.new (payload ++ payload_of inlet.old got.now) }
    ensures inlet { inlet.new ≡ inlet.old }
{
    let end = whole_bytes(at);
    let piece = inlet.take(got);
    let hunted = hunter.push(&piece);
    write_got(text, end, got, &piece)?;
    write_hunted(text, end, &hunted)
}
