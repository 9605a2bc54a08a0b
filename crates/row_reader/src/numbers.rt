//! Numbers in texts.

ghost use Rattle.std.specs.Prelude.{◌≡◌};
ghost use Rattle.row_reader.specs.Numbers.{digits, number, word_number};

/// The most digits that a number has.
const MOST_DIGITS: usize = 18;

// The value of 1 to 18 decimal digits.
#[tactic(auto, using(crate::proofs::Digits::digits_other, crate::proofs::Digits::digits_all, crate::proofs::Digits::digits_front))]
fn digits(text: &[u8]) -> Option<u64>
    ensures { result ≡ digits text.now }
{
    if text.is_empty() || text.len() > MOST_DIGITS {
        return None;
    }
    let mut value = 0;
    for byte in text {
        if !byte.is_ascii_digit() {
            return None;
        }
        value = value * 10 + u64::from(*byte - b'0');
    }
    Some(value)
}

/// The number in a row's field: an optional minus and then 1 to 18 decimal digits. None where the text is anything else.
#[tactic(auto, using(crate::proofs::Digits::digits_below, crate::proofs::Digits::number_minus))]
pub fn number(text: &[u8]) -> Option<i64>
    ensures { result ≡ number text.now }
{
    match text {
        [b'-', rest @ ..] => Some(-(digits(rest)? as i64)),
        _ => Some(digits(text)? as i64),
    }
}

/// The number in a command word: 1 to 18 decimal digits without a leading zero, 0 itself aside. None where the word is
/// anything else.
pub fn word_number(word: &[u8]) -> Option<u64>
    ensures { result ≡ word_number word.now }
{
    if word.len() > 1 && word[0] == b'0' {
        return None;
    }
    digits(word)
}

#[cfg(test)]
mod tests;
