//! Chunks of an input's bits.

ghost use Rattle.std.specs.Prelude.{◌≡◌, ◌+◌, ◌*◌, ◌<◌, ◌≤◌, ℕ, [], ◌∷◌, length, map, slice_index};
ghost use Rattle.std.specs.List.{range_with_len};
ghost use Rattle.ld_base.specs.Bits.{byte_bit, line_bit};

use ld_base::Chunk;

/// The bytes that have the bits of a chunk at whatever bit they begin.
const WINDOW: usize = 33;

/// The bits of the input from one on, that many.
pub(crate) fn chunk_at(input: &[u8], at: u64, count: u16) -> Chunk
    requires count { count ≤ 256 }
    requires within { at + count ≤ 8 * length input.now }
    ensures { result ≡ map (line_bit input.now) (range_with_len at count) }
{
    let bytes = shifted(&window(input, (at / 8) as usize), (at % 8) as u8);
    match Chunk::new(count, bytes) {
        Some(chunk) => chunk,
        None => unreachable!(),
    }
}

// The bytes from a place on, with zeros behind the last one.
fn window(input: &[u8], place: usize) -> [u8; WINDOW]
    requires { place ≤ length input.now }
    ensures { (k : ℕ) → k < 33 → place + k < length input.now → slice_index result k ≡ slice_index input.now (place + k) }
{
    let mut window = [0; WINDOW];
    let count = WINDOW.min(input.len() - place);
    window[..count].copy_from_slice(&input[place..place + count]);
    window
}

// The bits of some bytes from one of the first on.
fn shifted(bytes: &[u8; WINDOW], shift: u8) -> [u8; 32]
    requires { shift < 8 }
    ensures { (k : ℕ) → k < 256 → line_bit result k ≡ line_bit bytes.now (shift + k) }
{
    let mut shifted = [0; 32];
    for k in 0..shifted.len() {
        shifted[k] = joined(bytes[k], bytes[k + 1], shift);
    }
    shifted
}

// Eight bits of two bytes, from one of the first byte on.
fn joined(first: u8, second: u8, shift: u8) -> u8
    requires { shift < 8 }
    ensures { (k : ℕ) → k < 8 → byte_bit result k ≡ line_bit (first ∷ second ∷ []) (shift + k) }
{
    let both = u16::from_be_bytes([first, second]);
    (both << shift >> 8) as u8
}
