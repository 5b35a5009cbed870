// REST: the least cost of tying the sites of a level in the strips of the open labels, which share the budget.
ghost use Rattle.std.specs.Prelude.{◌≡◌, ◌+◌, ◌*◌, ◌<◌, ◌≤◌, length, get_or};
ghost use Rattle.arrays.specs.Ranked.{slot_count, colour_count};
ghost use Rattle.rows.specs.Rows.{level_size};
ghost use Rattle.rows.specs.Rest.{LevelIn, join_row, fold_rows, rest_rows};

use crate::budgets::least_split;
use crate::{Strip, place_of, rows_of};
use arrays::ranked::RankedSheet;
use arrays::splits::{BUDGETS_LENGTH, Splits};
use words::{NONE, get};

// The words of a level.
pub fn level_size(sheet: &RankedSheet) -> usize
    ensures { result ≡ level_size (slot_count sheet.now) (colour_count sheet.now) sheet.now.measures.budgets }
{
    rows_of(sheet) * sheet.measures.budgets as usize
}

// One strip more takes its share, from the highest budget down: what a lower one needs is still there.
fn join_row(splits: Splits, acc: &mut [u32], work: &[u32], row: usize)
    requires { (length acc.old ≤ splits.budgets) × (row + length acc.old ≤ length work.now) }
    ensures { acc.new ≡ join_row splits.entry.parts.now splits.entry.counts.now acc.old work.now row }
{
    for v in (0..acc.len()).rev() {
        acc[v] = least_split(splits, acc, 0, work, row, v);
    }
}

// All strips of the open labels, with their marks, take their shares, by rising slot; what the budget v then costs.
fn fold_rows(
    splits: Splits,
    colours: u32,
    work: &[u32],
    base: usize,
    labels: &[u32],
    marks: &[u32],
    v: u32,
    acc: &mut [u32],
) -> u32
    requires level_in { LevelIn work.now base colours splits.budgets labels.now marks.now }
    requires acc_len { (length acc.old ≡ splits.budgets) × (v < splits.budgets) }
    ensures { let fold = fold_rows splits.entry.parts.now splits.entry.counts.now work.now base (length labels.now) colours splits.entry.budgets in
        result ≡ get_or (fold (length labels.now) 0 0 0 labels.now marks.now acc.old) v 0 }
{
    let m = labels.len();
    let budgets = splits.budgets;
    let mut a: u32 = 0;
    let mut ca: u32 = 0;
    for (i, &cb) in labels.iter().enumerate() {
        if cb != 0 {
            let b = i as u32 + 1;
            let d = get(marks, a);
            let row = base + place_of(m, colours, budgets, Strip { a, ca, b, cb, d });
            join_row(splits, acc, work, row);
            a = b;
            ca = cb;
        }
    }
    let b = m as u32 + 1;
    let d = get(marks, a);
    let row = base + place_of(m, colours, budgets, Strip { a, ca, b, cb: 0, d });
    join_row(splits, acc, work, row);
    acc[v as usize]
}

// REST: the least cost of tying the sites of a level in the strips of the open labels, which share the budget v. The level has as many
// slots as there are labels, and as many budgets as are listed.
pub fn rest_of(
    splits: Splits,
    colours: u32,
    work: &[u32],
    base: usize,
    labels: &[u32],
    marks: &[u32],
    v: u32,
) -> u32
    requires level_in { LevelIn work.now base colours splits.budgets labels.now marks.now }
    requires v_lt_budgets { v < splits.budgets }
    ensures { result ≡ rest_rows splits.entry.parts.now splits.entry.counts.now work.now base (length labels.now) colours splits.entry.budgets labels.now marks.now v }
{
    let budgets = splits.budgets as usize;
    let mut acc = [NONE; BUDGETS_LENGTH];
    acc[0] = 0;
    fold_rows(
        splits,
        colours,
        work,
        base,
        labels,
        marks,
        v,
        &mut acc[..budgets],
    )
}
