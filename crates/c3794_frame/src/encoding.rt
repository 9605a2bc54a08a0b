ghost use Rattle.std.specs.Prelude.{◌≡◌, ◌≤◌, length};
ghost use Rattle.ld_base.specs.Words.{AreWords};
ghost use Rattle.c3794_frame.specs.Frame.{filled};
ghost use Rattle.c3794_frame.specs.Numbers.{bits_of};
ghost use Rattle.c3794_frame.specs.FrameOf.{FrameOf, frame_bits};

use crate::Frame;
use crate::header::header_word;
use crate::nibbles::{line_byte, line_pair};
use ld_base::Words;

// The line bytes of a frame without header and count, no yellow bit and idle payload.
const IDLE: [u8; 32] = [
    0x55, 0x55, 0x55, 0x55, 0x55, 0x55, 0x55, 0x55, 0xAA, 0xAA, 0xAA, 0xAA, 0xAA, 0xAA, 0xAA, 0xAA,
    0xAA, 0xAA, 0xAA, 0xAA, 0xAA, 0xAA, 0xAA, 0xAA, 0xAA, 0xAA, 0xAA, 0xAA, 0xAA, 0xAA, 0xAA, 0xAA,
];

/// The 256 bits of a frame, eight a byte, the first bit the highest. The spare bits are zeros and the unused payload bits
/// ones.
pub fn encode(f: &Frame, words: &Words) -> [u8; 32]
    ensures bits { bits_of result ≡ frame_bits words.now f.now }
    ensures frame { FrameOf words.now (bits_of result) f.now }
{
    let payload = f.payload();
    let mut bits = IDLE;
    encode_into(
        f.odd(),
        f.yellow(),
        &payload[..usize::from(f.channels())],
        words,
        &mut bits,
    );
    bits
}

/// Writes the same of the frame that `Frame::new` makes of these bytes over all that was in `bits`.
pub fn encode_into(odd: bool, yellow: bool, bytes: &[u8], words: &Words, bits: &mut [u8; 32])
    requires { (1 ≤ length bytes.now) × (length bytes.now ≤ 12) }
    ensures bits { bits_of bits.new ≡ frame_bits words.now (record { odd = odd; channels = length bytes.now; yellow = yellow; payload = filled bytes.now }) }
    ensures words { AreWords words.now }
{
    *bits = IDLE;
    let [first, second] = header_word(words, odd).to_be_bytes();
    bits[0] = first;
    bits[1] = second;
    bits[2] = line_byte(bytes.len() as u8);
    if yellow {
        bits[3] = 0x95;
    }
    for k in 0..bytes.len() {
        let [high, low] = line_pair(bytes[k]);
        bits[8 + 2 * k] = high;
        bits[9 + 2 * k] = low;
    }
}
