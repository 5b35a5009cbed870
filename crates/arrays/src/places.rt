// The places down a sheet (0 the top edge, k + 1 slot k, m + 1 the bottom edge): how they stand to a height, and which labels they let be.
// Each is the model's definition for the slots of the sheet. A place is a number, and not an enum of edges and labels: the rows of the
// table are counted by it.
ghost use Rattle.std.specs.Prelude.{◌≡◌};
ghost use Rattle.optimum.specs.Slots as model;
ghost use Rattle.arrays.specs.Arrays.{slots_by};
ghost use Rattle.arrays.specs.declared.Measures as measured;

use crate::ranked::RankedSheet;
use rules::{rule_3, rule_5};
use words::get;

// The edge or label a stands above the height y or at it.
pub fn is_over(sheet: &RankedSheet, a: u32, y: u32) -> bool
    ensures { (q : measured.Measures) → result ≡ model.over (slots_by q sheet.now.heights.now) a y }
{
    if a == 0 {
        return true;
    }
    get(sheet.heights, a - 1) <= y
}

// The edge or label b stands below the height y.
pub fn is_under(sheet: &RankedSheet, b: u32, y: u32) -> bool
    ensures { (q : measured.Measures) → result ≡ model.under (slots_by q sheet.now.heights.now) b y }
{
    if b == 0 {
        return false;
    }
    match sheet.heights.get(b as usize - 1) {
        Some(&height) => y < height,
        None => true,
    }
}

// The edge or label j, of colour e, lets a label of colour c be at slot k. The definition is by both colours, as are its callers:
// that every label is equally high, so that neither is read, is known here alone.
pub fn is_far(sheet: &RankedSheet, j: u32, e: u32, k: u32, c: u32) -> bool
    ensures { result ≡ model.far_from (slots_by sheet.now.measures sheet.now.heights.now) j e k c }
{
    if j == 0 {
        return true;
    }
    match sheet.heights.get(j as usize - 1) {
        Some(&height) => rule_3::is_far(sheet.measures.head.gap, height, get(sheet.heights, k)),
        None => true,
    }
}

// The edge or label j is clear of the height y.
pub fn is_clear(sheet: &RankedSheet, j: u32, y: u32) -> bool
    ensures { result ≡ model.clear_from (slots_by sheet.now.measures sheet.now.heights.now) j y }
{
    if j == 0 {
        return true;
    }
    match sheet.heights.get(j as usize - 1) {
        Some(&height) => rule_5::is_clear(sheet.measures.head.gap, height, y),
        None => true,
    }
}
