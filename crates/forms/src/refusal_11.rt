// Refusal 11 on one word: whether it is a tie. That the words of a layout are is looked for by judge (refusal_11).
ghost use Rattle.std.specs.Prelude.{◌≡◌};
ghost use Rattle.forms.specs.Forms.{tie_fits};

use words::kinds::{Kind, is_kind};
use words::{byte_field, spare_field};

// A word of kind 9 without a spare bit, its slot below m.
pub fn is_tie(m: usize, w: u32) -> bool
    ensures { result ≡ tie_fits m w }
{
    is_kind(w, Kind::Tie) && spare_field(w) == 0 && (byte_field(w) as usize) < m
}
