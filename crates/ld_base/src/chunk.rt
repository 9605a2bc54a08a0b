ghost use Rattle.std.specs.Prelude.{◌≡◌, ℕ, ◌<◌, ◌≤◌, [], length, slice_index, SomeIff};
ghost use Rattle.ld_base.specs.Bits.{bit_of, byte_bit, line_bit, line_bits};

use std::marker::Model;

/// The most bits of a chunk.
const MOST_BITS: u16 = 256;

/// Some bits of a line in order, up to 256, the first one the highest bit of the first byte. Bits past the count are zero.
#[derive(Clone, Copy, Debug, PartialEq, Eq)]
pub struct Chunk {
    count: u16,
    bytes: [u8; 32],
}

impl Model for Chunk {
    ghost use Rattle.std.specs.Prelude.{List, ℕ, length};
    ghost use Rattle.ld_base.specs.Bits.{line_bits, line_bytes};
    ghost use Rattle.ld_base.specs.Chunk.{IsPacked};
    ghost use Rattle.ld_base.specs.Packing.{repacked};

    ghost Value = { List ℕ };

    ghost view = { λ c. line_bits c.count c.bytes };

    ghost invariant = { λ c. IsPacked c.count c.bytes };

    ghost inverse = { λ bits. record { count = length bits; bytes = line_bytes 32 bits } };

    ghost inverse_ok = { λ c packed. repacked c packed };
}

impl Chunk {
    /// The first so many bits of these bytes. None exactly where there are more than 256.
    pub fn new(bits: u16, bytes: [u8; 32]) -> Option<Chunk>
        ensures { SomeIff result (bits ≤ 256) (line_bits bits bytes) }
    {
        if bits > MOST_BITS {
            return None;
        }
        Some(Chunk {
            count: bits,
            bytes: first_bytes(bits, bytes),
        })
    }

    /// The count of bits, 0 to 256.
    pub fn bits(&self) -> u16
        ensures count { result ≡ length self.now }
        ensures few { result ≤ 256 }
    {
        self.count
    }

    /// The bit at a place.
    pub fn bit(&self, at: u16) -> bool
        requires { at < length self.now }
        ensures { bit_of result ≡ slice_index self.now at }
    {
        self.bytes[usize::from(at / 8)] >> (7 - at % 8) & 1 == 1
    }

    /// The bits, eight a byte, with zeros past the last one.
    pub fn bytes(&self) -> [u8; 32]
        ensures bits { self.now ≡ line_bits (length self.now) result }
        ensures few { length self.now ≤ 256 }
        ensures zeros { (i : ℕ) → length self.now ≤ i → i < 256 → line_bit result i ≡ 0 }
    {
        self.bytes
    }
}

impl Default for Chunk {
    /// No bits.
    fn default() -> Chunk
        ensures { result ≡ [] }
    {
        Chunk {
            count: 0,
            bytes: [0; 32],
        }
    }
}

// The bytes with their first bits, and zeros behind them.
fn first_bytes(bits: u16, bytes: [u8; 32]) -> [u8; 32]
    requires { bits ≤ 256 }
    ensures same { line_bits bits result ≡ line_bits bits bytes }
    ensures zeros { (i : ℕ) → bits ≤ i → i < 256 → line_bit result i ≡ 0 }
{
    let whole = usize::from(bits / 8);
    if whole >= bytes.len() {
        return bytes;
    }
    let mut kept = [0; 32];
    kept[..whole].copy_from_slice(&bytes[..whole]);
    kept[whole] = first_bits(bytes[whole], (bits % 8) as u8);
    kept
}

// The first bits of a byte, and zeros behind them.
fn first_bits(byte: u8, count: u8) -> u8
    requires { count ≤ 8 }
    ensures kept { (k : ℕ) → k < count → byte_bit result k ≡ byte_bit byte k }
    ensures padded { (k : ℕ) → count ≤ k → k < 8 → byte_bit result k ≡ 0 }
{
    if count == 0 {
        0
    } else {
        byte & (0xFF << (8 - count))
    }
}
