// The slots at which a site may open no label: rule 5 of the sites before it, left of the label's tip. A site and a slot are tried where
// the site is taken from the arrays, and not for each strip or budget.
#![tactic(auto)]

ghost use Rattle.std.specs.Prelude.{◌≡◌, ◌<◌, ◌≤◌, length};
ghost use Rattle.sheet.specs.Limits.{most_slots};
ghost use Rattle.arrays.specs.Arrays.{near_slots, barred_by};

use arrays::ranked::RankedSheet;
use rules::rule_5::{is_clear, is_counted};
// The slots that are not clear of a site of height y, as bits.
fn near_slots(gap: u32, heights: &[u32], y: u32) -> u64
    requires { length heights.now ≤ most_slots }
    ensures { result ≡ near_slots gap heights.now y }
{
    let mut near: u64 = 0;
    for k in (0..heights.len()).rev() {
        near = near * 2 + u64::from(!is_clear(gap, heights[k], y));
    }
    near
}

// The slots at which the site of rank j may open no label, as bits.
pub fn barred_of(sheet: &RankedSheet, j: usize) -> u64
    requires { j < length sheet.now.xs.now }
    ensures { result ≡ barred_by sheet.now.measures sheet.now.heights.now sheet.now.xs.now sheet.now.ys.now j }
{
    let gap = sheet.measures.head.gap;
    let x = sheet.xs[j];
    let mut barred: u64 = 0;
    for i in 0..j {
        if is_counted(gap, x, sheet.xs[i]) {
            barred |= near_slots(gap, sheet.heights, sheet.ys[i]);
        }
    }
    barred
}
