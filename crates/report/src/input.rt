// An input's bytes become words here, and nowhere else: four bytes a word, the lowest first.
ghost use Rattle.std.specs.Prelude.{◌≡◌};
ghost use Rattle.report.specs.Input.{words_in};
ghost use Rattle.text.specs.Text.{written, past_of};

use refusals::refusal_12::WORD_BYTES;

// Puts the words of the bytes at the start of an area, and answers how many; what would lie past its end is left out.
pub fn put_words(words: &mut [u32], bytes: &[u8]) -> usize
    ensures value { result ≡ past_of words.old 0 (words_in bytes.now) }
    ensures words_after { words.new ≡ written words.old 0 (words_in bytes.now) }
{
    let (fours, _) = bytes.as_chunks::<WORD_BYTES>();
    let count = fours.len().min(words.len());
    for (i, four) in fours[..count].iter().enumerate() {
        words[i] = u32::from_le_bytes(*four);
    }
    count
}
