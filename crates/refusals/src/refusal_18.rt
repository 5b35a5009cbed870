// Refusal 18: a two-sided sheet, which the maker does not lay out.
ghost use Rattle.std.specs.Prelude.{◌≡◌};
ghost use Rattle.sheet.specs.Sheet.{sheet_in};

use words::{get, side_bit};

// Whether the head says two-sided.
pub fn is_two_sided(sheet: &[u32]) -> bool
    ensures { result ≡ (sheet_in sheet.now).is_two_sided }
{
    side_bit(get(sheet, 0)) == 1
}
