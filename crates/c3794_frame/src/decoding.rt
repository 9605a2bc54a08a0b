ghost use Rattle.std.specs.Prelude.{◌≡◌, ◌≤◌, ◌<◌, ℕ, None, Ok, IfOk, length, slice_index};
ghost use Rattle.c3794_frame.specs.Numbers.{bits_of};
ghost use Rattle.ld_base.specs.Words.{AreWords};
ghost use Rattle.c3794_frame.specs.Frame.{IsFrame};
ghost use Rattle.c3794_frame.specs.FrameOf.{FrameOf, Layout};
ghost use Rattle.c3794_frame.specs.Nibble.{ArePayload};
ghost use Rattle.c3794_frame.specs.Reading.{broken_pair, read_frame};

use crate::Frame;
use crate::complements::broken_pair;
use crate::header::word_of;
use crate::nibbles::nibble;
use ld_base::Words;

/// Why 256 bits are no frame: the first of these that holds.
#[derive(Clone, Copy, Debug, PartialEq, Eq)]
pub enum FrameFault {
    /// The first sixteen bits are neither header word.
    Header,
    /// The pair that begins at this line bit is the first whose second bit isn't the complement of its first.
    Pair(u8),
    /// This stands in the place of the count of channels.
    Count(u8),
}

/// The frame of 256 bits with that count of channels, or the first fault. The values of spare bits and of unused payload
/// bits are ignored.
pub fn decode(bits: &[u8; 32], channels: u8, words: &Words) -> Result<Frame, FrameFault>
    requires { (1 ≤ channels) × (channels ≤ 12) }
    ensures reading { result ≡ read_frame words.now channels (bits_of bits.now) }
    ensures frame { IfOk result (λ f. FrameOf words.now (bits_of bits.now) f × (f.channels ≡ channels)) }
    ensures exact { (f : Layout) → IsFrame f → FrameOf words.now (bits_of bits.now) f → f.channels ≡ channels → result ≡ Ok f }
{
    read(bits, channels, words)
}

// The reading of the bits, which the clauses of `decode` rest on.
fn read(bits: &[u8; 32], channels: u8, words: &Words) -> Result<Frame, FrameFault>
    requires { (1 ≤ channels) × (channels ≤ 12) }
    ensures reading { result ≡ read_frame words.now channels (bits_of bits.now) }
    ensures words { AreWords words.now }
    ensures long { length bits.now ≡ 32 }
{
    let Some(odd) = word_of(u16::from_be_bytes([bits[0], bits[1]]), words) else {
        return Err(FrameFault::Header);
    };
    if let Some(at) = broken_pair(bits) {
        return Err(FrameFault::Pair(at));
    }
    let count = nibble(bits[2]);
    if count != channels {
        return Err(FrameFault::Count(count));
    }
    let yellow = nibble(bits[3]) & 8 != 0;
    Ok(Frame::of(odd, channels, yellow, payload_of(bits, channels)))
}

// The bytes of payload of so many channels, and 0xFF behind them. They say nothing where a pair is broken.
fn payload_of(bits: &[u8; 32], channels: u8) -> [u8; 12]
    requires { channels ≤ 12 }
    ensures payload { broken_pair (bits_of bits.now) ≡ None → ArePayload channels (bits_of bits.now) result }
    ensures unused { (k : ℕ) → channels ≤ k → k < 12 → slice_index result k ≡ 255 }
{
    let mut payload = [0xFF; 12];
    for k in 0..channels as usize {
        payload[k] = nibble(bits[8 + 2 * k]) << 4 | nibble(bits[9 + 2 * k]);
    }
    payload
}
