//! What rules do to the bits of a frame.

ghost use Rattle.std.specs.Prelude.{◌≡◌, ℕ, ◌+◌, ◌-◌, ◌<◌, ◌≤◌, ◌^◌, ◌++◌, map, fold, take, drop, slice_index, slice_set, IfOk, OnOk};
ghost use Rattle.ld_base.specs.Bits.{line_bit, line_bits};
ghost use Rattle.ld_base.specs.Script.{chunks_of, cut_at, cut_of, flipped, repeats, slip_of};
ghost use Rattle.script_wire.specs.Wires.{due_of, IsJoined};

use ld_base::{Act, Chunk, NoMemory};
use std::alloc::Global;

/// Bits of a frame.
const FRAME_BITS: u16 = 256;

/// All bits of a frame.
pub(crate) fn whole(frame: &[u8; 32]) -> Chunk
    ensures { result ≡ line_bits 256 frame.now }
{
    Chunk::new(FRAME_BITS, *frame).unwrap_or_default()
}

/// The chunks of a frame under these acts, each with its due tick; the first is due at that tick.
pub(crate) fn chunks(
    alloc: Global,
    acts: &[Act],
    due: u64,
    frame: &[u8; 32],
) -> Result<Vec<(u64, Chunk)>, NoMemory>
    requires { due < 2 ^ 63 }
    ensures { IfOk result (λ chunks. map due_of chunks.items ≡ chunks_of acts.now due (line_bits 256 frame.now)) }
{
    let mut chunks = Vec::new(alloc);
    if acts.contains(&Act::Lose) {
        return Ok(chunks);
    }
    let frame = with_flips(acts, frame);
    let slip = slip(acts).min(FRAME_BITS);
    add_first(&mut chunks, due, &frame, slip, cut(acts))?;
    add_repeats(
        &mut chunks,
        acts,
        due,
        bits_from(&frame, slip, FRAME_BITS - slip),
    )?;
    Ok(chunks)
}

// The frame after all flips.
fn with_flips(acts: &[Act], frame: &[u8; 32]) -> [u8; 32]
    ensures { line_bits 256 result ≡ fold flipped (line_bits 256 frame.now) acts.now }
{
    let mut bytes = *frame;
    for act in acts {
        if let Act::Flip(bit) = act {
            flip(&mut bytes, *bit);
        }
    }
    bytes
}

// Inverts a bit, where there is one.
fn flip(bytes: &mut [u8; 32], bit: u16)
    ensures { line_bits 256 bytes.new ≡ slice_set (line_bits 256 bytes.old) bit (1 - slice_index (line_bits 256 bytes.old) bit) }
{
    if bit < FRAME_BITS {
        bytes[usize::from(bit / 8)] ^= 0x80 >> (bit % 8);
    }
}

// How many bits the first slip takes away.
fn slip(acts: &[Act]) -> u16
    ensures { result ≡ slip_of acts.now }
{
    for act in acts {
        if let Act::Slip(bits) = act {
            return *bits;
        }
    }
    0
}

// How many bits the first cut leaves in front.
fn cut(acts: &[Act]) -> Option<u16>
    ensures { result ≡ cut_of acts.now }
{
    for act in acts {
        if let Act::Cut(bits) = act {
            return Some(*bits);
        }
    }
    None
}

// Adds the bits from a place on: one chunk, or two where they are cut short of their end.
fn add_first(
    chunks: &mut Vec<(u64, Chunk)>,
    due: u64,
    frame: &[u8; 32],
    slip: u16,
    cut: Option<u16>,
) -> Result<(), NoMemory>
    requires { (due < 2 ^ 63) × (slip ≤ 256) }
    ensures { OnOk result (map due_of chunks.new.items ≡ map due_of chunks.old.items ++ cut_at cut due (drop slip (line_bits 256 frame.now))) }
{
    let left = FRAME_BITS - slip;
    let count = cut.unwrap_or(left).min(left);
    chunks.push((due, bits_from(frame, slip, count)))?;
    if count == left {
        return Ok(());
    }
    chunks.push((due + 1, bits_from(frame, slip + count, left - count)))?;
    Ok(())
}

// Adds a chunk for each repeat.
fn add_repeats(
    chunks: &mut Vec<(u64, Chunk)>,
    acts: &[Act],
    due: u64,
    chunk: Chunk,
) -> Result<(), NoMemory>
    requires { due < 2 ^ 63 }
    ensures { OnOk result (map due_of chunks.new.items ≡ map due_of chunks.old.items ++ repeats acts.now due chunk) }
{
    for act in acts {
        if let Act::Repeat(extra) = act {
            chunks.push((due + u64::from(*extra), chunk))?;
        }
    }
    Ok(())
}

// So many bits of a frame from a place on.
fn bits_from(frame: &[u8; 32], from: u16, count: u16) -> Chunk
    requires { from + count ≤ 256 }
    ensures { result ≡ take count (drop from (line_bits 256 frame.now)) }
{
    Chunk::new(count, moved(frame, from)).unwrap_or_default()
}

// The bits of a frame from a place on, and then what is left of the bytes.
fn moved(frame: &[u8; 32], from: u16) -> [u8; 32]
    ensures { (i : ℕ) → i + from < 256 → line_bit result i ≡ line_bit frame.now (i + from) }
{
    let whole = usize::from(from / 8);
    let mut bytes = [0; 32];
    for (k, byte) in bytes.iter_mut().enumerate() {
        *byte = joined(
            byte_at(frame, whole + k),
            byte_at(frame, whole + k + 1),
            from % 8,
        );
    }
    bytes
}

// A byte of a frame, or 0 past the last one.
fn byte_at(frame: &[u8; 32], at: usize) -> u8
    ensures { result ≡ slice_index frame.now at }
{
    frame.get(at).copied().unwrap_or(0)
}

// The eight bits from a bit of the first of two bytes on.
fn joined(first: u8, second: u8, from: u16) -> u8
    requires { from < 8 }
    ensures { IsJoined first second from result }
{
    ((u16::from_be_bytes([first, second]) >> (8 - from)) & 0xFF) as u8
}
