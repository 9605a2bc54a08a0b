//! The two header words of a line.

ghost use Rattle.std.specs.Prelude.{◌≡◌};
ghost use Rattle.ld_base.specs.Words.{AreWords};
ghost use Rattle.c3794_frame.specs.FrameOf.{word};
ghost use Rattle.c3794_frame.specs.Reading.{word_of};

use ld_base::Words;

/// The sixteen bits of word B, where `odd` is true, or else of word A.
pub fn header_word(words: &Words, odd: bool) -> u16
    ensures word { result ≡ word words.now odd }
    ensures words { AreWords words.now }
{
    let (a, b) = words.numbers();
    u16::from(if odd { b } else { a }) << 8 | 0x0F
}

/// Which header word these sixteen bits are: true for word B, false for word A, None where they are neither.
pub fn word_of(header: u16, words: &Words) -> Option<bool>
    ensures word { result ≡ word_of words.now header }
    ensures words { AreWords words.now }
{
    if header == header_word(words, true) {
        Some(true)
    } else if header == header_word(words, false) {
        Some(false)
    } else {
        None
    }
}
