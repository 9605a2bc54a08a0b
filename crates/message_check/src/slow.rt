ghost use Rattle.std.specs.Prelude.{◌≡◌, ◌*◌, ◌^◌, bit_xor};
ghost use Rattle.message_check.specs.Check.{IsCheck, check_of, divisor};
ghost use Rattle.message_check.specs.Polynomials.{IsRemainder};

/// The polynomial x^32 less its highest term: the divisor is this and x^32.
const POLYNOMIAL: u32 = 0x04C1_1DB7;

/// The check of some bytes, bit by bit.
pub fn check(bytes: &[u8]) -> u32
    ensures remainder { IsCheck bytes.now result }
    ensures value { result ≡ check_of bytes.now }
{
    let mut remainder = u32::MAX;
    for byte in bytes {
        remainder = after_byte(remainder, *byte);
    }
    !remainder
}

// The remainder with one byte more in front of x^32.
fn after_byte(remainder: u32, byte: u8) -> u32
    ensures { IsRemainder 32 divisor (bit_xor (remainder * 2 ^ 8) (byte * 2 ^ 32)) result }
{
    let mut remainder = remainder ^ (u32::from(byte) << 24);
    for _turn in 0..8u32 {
        remainder = times_x(remainder);
    }
    remainder
}

// The remainder of a remainder times x.
fn times_x(remainder: u32) -> u32
    ensures { IsRemainder 32 divisor (remainder * 2) result }
{
    let doubled = (remainder & 0x7FFF_FFFF) << 1;
    if remainder < 0x8000_0000 {
        doubled
    } else {
        doubled ^ POLYNOMIAL
    }
}
