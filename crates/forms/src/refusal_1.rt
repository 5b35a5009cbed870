// Refusal 1: the list is empty, or its first word is no head, or its width or gap is 0. The test on a word; of a list: reader, `refusal_1`.
ghost use Rattle.std.specs.Prelude.{◌≡◌};
ghost use Rattle.forms.specs.Forms.{is_head_word};

use words::kinds::{Kind, is_kind};
use words::{gap_field, low_field};

pub fn is_head_word(w: u32) -> bool
    ensures { result ≡ is_head_word w }
{
    is_kind(w, Kind::Head) && low_field(w) != 0 && gap_field(w) != 0
}
