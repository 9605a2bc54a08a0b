//! The words of a number.

ghost use Rattle.std.specs.Prelude.{◌≡◌};
ghost use Rattle.scenario_generator.specs.Words.{words_of};

use rand_core::utils::NextWord;
use rand_pcg::Lcg64Xsh32;

/// How many words a scenario of three stations takes.
pub(crate) const WORDS: usize = 46;

/// The first words of PCG's generator that starts from this number, on stream 1.
pub(crate) fn words_of(number: u64) -> [u32; WORDS]
    ensures { result ≡ words_of number }
{
    let mut source = Lcg64Xsh32::new(number, 1);
    let mut words = [0; WORDS];
    for k in 0..WORDS {
        words[k] = source.next_word();
    }
    words
}
