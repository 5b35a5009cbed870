// Refusal 4: slot heights not strictly rising. The test on a word; through a whole sheet: reader, `refusal_4`.
ghost use Rattle.std.specs.Prelude.{◌≡◌};
ghost use Rattle.refusals.specs.Wordwise.{low_ok, low_next};

use words::kinds::{Kind, is_kind};
use words::low_field;

// Whether a word is no slot, or one no lower than the least height that may come.
pub fn low_ok(low: u32, w: u32) -> bool
    ensures { result ≡ low_ok low w }
{
    !is_kind(w, Kind::Slot) || low <= low_field(w)
}

// The least height that may come after a word.
pub fn low_next(low: u32, w: u32) -> u32
    ensures { result ≡ low_next low w }
{
    if is_kind(w, Kind::Slot) {
        return low_field(w) + 1;
    }
    low
}
