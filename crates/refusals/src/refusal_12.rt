// Refusal 12: an input of more than 1,024 bytes, or of bytes that are not whole words.
ghost use Rattle.std.specs.Prelude.{◌≡◌};
ghost use Rattle.refusals.specs.Input.{is_unfit};

// The bytes of the longest input that is served, and of a word.
pub const MOST_BYTES: usize = 1024;

pub const WORD_BYTES: usize = 4;

pub fn is_unfit(size: usize) -> bool
    ensures { result ≡ is_unfit size }
{
    MOST_BYTES < size || size % WORD_BYTES != 0
}
