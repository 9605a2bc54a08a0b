//! The complements that follow the data bits of a frame.

ghost use Rattle.std.specs.Prelude.{◌≡◌, ◌+◌, ◌-◌, ◌*◌, ◌%◌, ◌<◌, ◌≤◌, ℕ};
ghost use Rattle.std.specs.Int.{bit_at};
ghost use Rattle.ld_base.specs.Bits.{line_bit};
ghost use Rattle.c3794_frame.specs.Numbers.{bits_of};
ghost use Rattle.c3794_frame.specs.Nibble.{AreEqualPairs};
ghost use Rattle.c3794_frame.specs.Reading.{broken_pair};

/// The first line bit behind the header that equals the one that should be its complement.
pub(crate) fn broken_pair(bits: &[u8; 32]) -> Option<u8>
    ensures { result ≡ broken_pair (bits_of bits.now) }
{
    for k in 0..4u8 {
        // (the last eight bytes share two with those before them)
        let from = (2 + 8 * k).min(24);
        let equal = equal_pairs(word_at(bits, usize::from(from)));
        if equal != 0 {
            return Some(8 * from + equal.leading_zeros() as u8);
        }
    }
    None
}

// The bits of eight bytes from one on.
fn word_at(bits: &[u8; 32], from: usize) -> u64
    requires { from + 8 ≤ 32 }
    ensures { (i : ℕ) → i < 64 → bit_at result (63 - i) ≡ line_bit bits.now (8 * from + i) }
{
    u64::from_be_bytes([
        bits[from],
        bits[from + 1],
        bits[from + 2],
        bits[from + 3],
        bits[from + 4],
        bits[from + 5],
        bits[from + 6],
        bits[from + 7],
    ])
}

// The first bits of the pairs whose bits are equal.
fn equal_pairs(word: u64) -> u64
    ensures { AreEqualPairs word result }
{
    !(word ^ word << 1) & 0xAAAA_AAAA_AAAA_AAAA
}
