// Refusal 7: P, the product of the bounds plus one, above 64. What a word multiplies, and the test on P; through a whole sheet: reader, `refusal_7`.
ghost use Rattle.std.specs.Prelude.{◌≡◌, ltb};
ghost use Rattle.sheet.specs.Limits.{most_budgets};
ghost use Rattle.refusals.specs.Wordwise.{factor_of};

use words::kinds::{Kind, is_kind};
use words::{MOST_BUDGETS, UNBOUNDED, byte_field};

// What a word multiplies P by.
pub fn factor(w: u32) -> u32
    ensures { result ≡ factor_of w }
{
    if !is_kind(w, Kind::Colour) {
        return 1;
    }
    let bound = byte_field(w);
    if bound == UNBOUNDED { 1 } else { bound + 1 }
}

// Whether P is above what is served.
pub fn is_too_many(p: u32) -> bool
    ensures { result ≡ ltb most_budgets p }
{
    MOST_BUDGETS < p
}
