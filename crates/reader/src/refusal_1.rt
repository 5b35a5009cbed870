// Refusal 1 of a list: it is empty, or its first word is no head, or its width or gap is 0.
ghost use Rattle.std.specs.Prelude.{◌≡◌};
ghost use Rattle.sheet.specs.Sheet.{is_head};

use forms::refusal_1::is_head_word;

pub fn is_head(sheet: &[u32]) -> bool
    ensures { result ≡ is_head sheet.now }
{
    sheet.first().is_some_and(|w| is_head_word(*w))
}
