//! The command `frames`: the frames and messages in line bits.

ghost use Rattle.std.specs.Prelude.{◌≡◌, ◌+◌, ◌<◌, ◌≤◌, length, IfOk};
ghost use Rattle.bench_cmd.specs.FramesText.{frames_text};
ghost use Rattle.bench_cmd.specs.Transfers.{largest_input};

use crate::cutting::chunk_at;
use crate::frame_lines::write_end;
use crate::gains::{begin_of, write_gained};
use bit_sync::Receiver;
use bit_sync::laws::gains_of_a_chunk;
use ld_base::{NoMemory, Words};
use payload_map::Inlet;
use relay_message::Hunter;
use std::alloc::Global;

/// How many frames in a row without their header word end a lock.
const MISSES: u8 = 3;

/// The bits of a frame.
const FRAME_BITS: u64 = 256;

/// The frames and messages in an input's bits as text. The bits are fed a frame's length at a time, and while there is a
/// lock up to the end of each frame: what is told doesn't depend on where they are cut.
pub(crate) fn frames(alloc: Global, channels: u8, input: &[u8]) -> Result<Vec<u8>, NoMemory>
    requires channels { (1 ≤ channels) × (channels ≤ 12) }
    requires small { length input.now ≤ largest_input }
    ensures { IfOk result (λ text. text.items ≡ frames_text channels input.now) }
{
    gains_of_a_chunk();
    let bits = 8 * input.len() as u64;
    let mut receiver = Receiver::new(channels, usual_words(), MISSES);
    let mut inlet = Inlet::new(channels);
    let mut hunter = Hunter::new();
    let mut text = Vec::new(alloc);
    let mut begin = None;
    let mut at = 0;
    'feeding: while at < bits {
        let count = next_count(begin, at, bits);
        let fed = receiver.feed(&chunk_at(input, at, count));
        at += u64::from(count);
        let next = begin_of(&receiver, at);
        write_gained(&mut text, &mut inlet, &mut hunter, begin, next, fed.frame)?;
        begin = next;
    }
    write_end(&mut text, bits, begin.is_some())?;
    Ok(text)
}

// The default header words.
fn usual_words() -> Words
    ensures { result ≡ record { a = 155; b = 223 } }
{
    match Words::new(155, 223) {
        Some(words) => words,
        None => unreachable!(),
    }
}

// How many bits to feed next: up to the end of the present frame, or of the input.
fn next_count(begin: Option<u64>, at: u64, bits: u64) -> u16
    requires { at < bits }
    ensures some { (1 ≤ result) × (result ≤ 256) }
    ensures within { at + result ≤ bits }
{
    let held = match begin {
        Some(begin) => at.saturating_sub(begin) % FRAME_BITS,
        None => 0,
    };
    (bits - at).min(FRAME_BITS - held) as u16
}
