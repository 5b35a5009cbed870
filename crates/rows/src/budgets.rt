// Budgets: what may be taken from each, listed once so that no loop over budgets divides, and the least cost of sharing one.
ghost use Rattle.std.specs.Prelude.{◌≡◌, ℕ, ◌+◌, ◌*◌, ◌<◌, ◌≤◌, length, get_or};
ghost use Rattle.sheet.specs.Limits.{most_budgets};
ghost use Rattle.arrays.specs.Budgets.{Listed, SplitsOf, part_at, splits_length};
ghost use Rattle.rows.specs.Budgets.{Others, split_by, left_by};

use arrays::radices::Radices;
use arrays::ranked::RankedSheet;
use arrays::splits::{BUDGETS_LENGTH, Splits};
use costs::masks::{is_below, mask_below};

// A byte that is no budget. What a draw leaves is not an Option: it stands in an array of bytes, one for each budget, which the table's
// innermost loop reads.
const NOT_DRAWN: u8 = 255;

// The cost of "none", as a sum of two costs holds it.
const NONE: u64 = words::NONE as u64;

// Lists what may be taken from v, in its own part of the list; returns how many there are.
fn list_below(radices: Radices, v: usize, parts: &mut [u8]) -> u8
    requires { (v < most_budgets) × (length parts.old ≡ splits_length) }
    ensures listed { Listed radices.entry.list.now v (v + 1) result (part_at parts.new v) }
    ensures others { Others parts.old parts.new (v * most_budgets) most_budgets }
{
    let base = v * BUDGETS_LENGTH;
    let mut mask = mask_below(radices, v as u32);
    let mut count: u8 = 0;
    for w in 0..v + 1 {
        parts[base + count as usize] = w as u8;
        count += u8::from(mask % 2 == 1);
        mask /= 2;
    }
    count
}

// Lists, for each budget below P, what may be taken from it, and counts it; the counts of the others stay as they are. The contract says of
// what may be taken that it stands somewhere in the list: arrays/proofs/Listed finds the place, and says that the lists of all budgets are
// within bounds where the others' counts are 0.
pub fn list_splits(radices: Radices, budgets: usize, parts: &mut [u8], counts: &mut [u8])
    requires { (budgets ≤ most_budgets) × (length parts.old ≡ splits_length) × (length counts.old ≡ most_budgets) }
    ensures listed { SplitsOf radices.entry.list.now budgets parts.new counts.new }
    ensures others { (v : ℕ) → budgets ≤ v → get_or counts.new v 0 ≡ get_or counts.old v 0 }
{
    for v in 0..budgets {
        counts[v] = list_below(radices, v, parts);
    }
}

// The least cost of sharing u between the rows f and g, which start at two places of two areas.
pub fn least_split(splits: Splits, f: &[u32], from: usize, g: &[u32], at: usize, u: usize) -> u32
    requires { (u < splits.budgets) × (from + u < length f.now) × (at + u < length g.now) }
    ensures { result ≡ split_by splits.entry.parts.now splits.entry.counts.now (λ w. get_or f.now (from + w) 0) (λ w. get_or g.now (at + w) 0) u }
{
    let end = at + u;
    let mut best = NONE;
    for &w in splits.below(u) {
        let w = w as usize;
        best = best.min(u64::from(f[from + w]) + u64::from(g[end - w]));
    }
    best as u32
}

// What a draw leaves of the budget v; NOT_DRAWN if it may not be drawn.
fn left_of(radices: Radices, draw: u32, v: u8) -> u8
    ensures { result ≡ left_by radices.entry.list.now draw v }
{
    if is_below(radices, draw, u32::from(v)) {
        v - draw as u8
    } else {
        NOT_DRAWN
    }
}

// What a draw leaves of each budget below P.
pub fn list_left(sheet: &RankedSheet, draw: u32) -> [u8; BUDGETS_LENGTH]
    ensures { (v : ℕ) → v < sheet.now.measures.budgets → get_or result v 0 ≡ left_by sheet.now.radices.list.now draw v }
{
    let mut left = [NOT_DRAWN; BUDGETS_LENGTH];
    for v in 0..sheet.measures.budgets as usize {
        left[v] = left_of(sheet.radices, draw, v as u8);
    }
    left
}

#[cfg(test)]
mod tests {
    use super::*;
    use arrays::splits::SPLITS_LENGTH;

    // Radices 2 and 3, so six budgets: v % 2 labels of the first colour, v / 2 of the second. Worked out by hand.
    #[test]
    fn lists_what_may_be_taken_from_six_budgets(rt: HostRuntime) {
        let mut parts = [0; SPLITS_LENGTH];
        let mut counts = [9; BUDGETS_LENGTH];
        list_splits(Radices { list: &[2, 3] }, 6, &mut parts, &mut counts);
        assert_eq!(rt; &counts[..8], [1, 2, 2, 4, 3, 6, 9, 9].as_slice());
        let lent = Splits {
            budgets: 6,
            parts: &parts,
            counts: &counts,
        }
        .below(4);
        assert_eq!(rt; lent, [0, 2, 4].as_slice());
    }
}
