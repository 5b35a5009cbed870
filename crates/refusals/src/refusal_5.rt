// Refusal 5: a site's x above the width. The test on a word; through a whole sheet: reader, `refusal_5`.
ghost use Rattle.std.specs.Prelude.{◌≡◌};
ghost use Rattle.refusals.specs.Wordwise.{width_ok};

use words::high_field;
use words::kinds::{Kind, is_kind};

// Whether a word is no site, or one within the width.
pub fn width_ok(width: u32, w: u32) -> bool
    ensures { result ≡ width_ok width w }
{
    !is_kind(w, Kind::Site) || high_field(w) <= width
}
