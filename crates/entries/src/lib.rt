// Fills one row of the one-sided table, a strip's entries by budget, from the rows of the level below.
#![tactic(auto)]

pub mod filling;

ghost use Rattle.std.specs.Prelude.{◌≡◌, ◌+◌, ◌<◌, ◌≤◌, min, length, get_or};
ghost use Rattle.search.specs.Cost.{plus};
ghost use Rattle.optimum.specs.OneSided.{top_word};
ghost use Rattle.arrays.specs.Ranked.{given_of};
ghost use Rattle.rows.specs.Rows.{strip_of, point_of};
ghost use Rattle.rows.specs.Level.{row_at};
ghost use Rattle.entries.specs.Entries.{RowFits, PartsFit, LeavesGap, WindowReady, RowIs, RowJoined, RowLowered, open_at, window_least, is_single, SlotTried, SlotsTried, EntriesFilled};
ghost use Rattle.entries.specs.Filled.{filled_at, filled_in};

use crate::filling::Filling;
use arrays::splits::Splits;
use rows::Strip;
use rows::budgets::least_split;
use rows::level::TableLevel;
use strips::Window;
use words::NONE;

// The lesser of a cost and of the sum of two. The sum needs no cap: what is above every cost is not the lesser.
fn lesser_sum(old: u32, a: u32, b: u32) -> u32
    ensures { result ≡ min old (plus top_word a b) }
{
    let sum = u64::from(a) + u64::from(b);
    sum.min(u64::from(old)) as u32
}

// A row's n words are those of the row at `from`.
fn copy_row(work: &mut [u32], base: usize, from: usize, n: usize)
    requires { (base + n ≤ from) × (from + n ≤ length work.old) }
    ensures { RowIs base n (λ v. get_or work.old (from + v) 0) work.old work.new }
{
    for v in 0..n {
        work[base + v] = work[from + v];
    }
}

// A row's n words are those of the row at `up`, at a further cost, or those of the row at `down`, at another, whichever is less.
fn start_row(work: &mut [u32], base: usize, up: usize, rise: u32, down: usize, fall: u32, n: usize)
    requires { PartsFit n base (length work.old) up down }
    ensures { RowIs base n (λ v. min (plus top_word rise (get_or work.old (up + v) 0)) (plus top_word fall (get_or work.old (down + v) 0))) work.old work.new }
{
    for v in 0..n {
        let joined = lesser_sum(words::plus_of(rise, work[up + v]), fall, work[down + v]);
        work[base + v] = joined;
    }
}

// Joins the label above or the label below in a row, by the rows of the strip as the site leaves it.
fn start_joined(work: &mut [u32], level: &TableLevel, p: Strip, base: usize)
    requires { RowFits (row_at level.now base) (strip_of p) (length work.old) }
    ensures { RowJoined (row_at level.now base) (strip_of p) work.old work.new }
{
    let sheet = level.sheet;
    let s = level.site;
    let up = level.low + rows::row_place(sheet, strips::risen_of(sheet, p, s));
    let down = level.low + rows::row_place(sheet, strips::fallen_of(sheet, p, s));
    let rise = strips::rise_cost(sheet, p, s);
    let fall = strips::fall_cost(sheet, p, s);
    start_row(
        work,
        base,
        up,
        rise,
        down,
        fall,
        sheet.measures.budgets as usize,
    );
}

// The lesser of an entry and of opening a label that leaves u of the budget.
fn opened(
    old: u32,
    work: &[u32],
    splits: Splits,
    upper: usize,
    lower: usize,
    n: usize,
    cost: u32,
    u: usize,
) -> u32
    requires { (n ≤ splits.budgets) × (upper + n ≤ length work.now) × (lower + n ≤ length work.now) }
    ensures { result ≡ min old (open_at splits.entry.parts.now splits.entry.counts.now work.now n cost u upper lower) }
{
    if n <= u {
        old
    } else {
        lesser_sum(old, cost, least_split(splits, work, upper, work, lower, u))
    }
}

// Opens a label that costs `cost` in a row; `left` says what it leaves of each budget, which the rows at `upper` and `lower` share.
fn open_row(
    work: &mut [u32],
    splits: Splits,
    left: &[u8],
    base: usize,
    upper: usize,
    lower: usize,
    n: usize,
    cost: u32,
)
    requires { (n ≤ splits.budgets) × PartsFit n base (length work.old) upper lower × (n ≤ length left.now) }
    ensures { RowLowered base n (λ v. open_at splits.entry.parts.now splits.entry.counts.now work.old n cost (get_or left.now v 0) upper lower) work.old work.new }
{
    for v in 0..n {
        let u = left[v] as usize;
        let t = opened(work[base + v], work, splits, upper, lower, n, cost, u);
        work[base + v] = t;
    }
}

// Opens a label at slot k, unless it is barred to the site or one of the parts is none at the full budget.
fn open_slot(work: &mut [u32], filling: &Filling, p: Strip, base: usize, k: u32)
    requires { let l = filled_at filling.now base in
        RowFits l (strip_of p) (length work.old) × LeavesGap l (strip_of p) k }
    ensures { SlotTried (filled_at filling.now base) (strip_of p) k work.old work.new }
{
    let level = &filling.level;
    let sheet = level.sheet;
    let cost = filling.opening[k as usize];
    if cost == NONE {
        return;
    }
    let turn = strips::turn_at(sheet, level.site, k);
    let at = rows::part_places(sheet, p, level.site, level.low, k, turn);
    let upper = at.upper;
    let lower = at.lower;
    let n = sheet.measures.budgets as usize;
    let last = n - 1;
    if (work[upper + last] == NONE) | (work[lower + last] == NONE) {
        return;
    }
    open_row(
        work,
        sheet.splits,
        filling.left,
        base,
        upper,
        lower,
        n,
        cost,
    );
}

// There is but one budget, and it allows the label.
fn is_single(n: usize, splits: Splits, left: &[u8]) -> bool
    requires { (n ≤ length left.now) × (0 < n) }
    ensures { result ≡ is_single n splits.entry.parts.now splits.entry.counts.now left.now }
{
    n == 1 && splits.parts[0] == 0 && splits.counts[0] == 1 && left[0] == 0
}

// With one budget: the lesser of an entry and of opening a label at a slot of a window.
fn least_open(work: &[u32], filling: &Filling, p: Strip, window: Window, old: u32) -> u32
    requires { WindowReady (filled_in filling.now) (strip_of p) window (length work.now) }
    ensures { let level = filling.now.level in
        result ≡ min old (window_least (given_of level.sheet.now) work.now level.low (strip_of p) (point_of level.site) window) }
{
    let level = &filling.level;
    let sheet = level.sheet;
    let s = level.site;
    let low = level.low;
    let opening = filling.opening;
    let mut best = old;
    for k in window.from..window.to {
        let cost = opening[k as usize];
        let turn = strips::turn_at(sheet, s, k);
        let parts = parts::parts_cost(work, sheet, p, s, low, k, turn);
        best = lesser_sum(best, cost, parts);
    }
    best
}

// Opens a label at each slot between the strip's ends that is far enough from both.
fn open_slots(work: &mut [u32], filling: &Filling, p: Strip, base: usize)
    requires { RowFits (filled_at filling.now base) (strip_of p) (length work.old) }
    ensures { SlotsTried (filled_at filling.now base) (strip_of p) work.old work.new }
{
    let sheet = filling.level.sheet;
    let window = strips::open_window(sheet, p, filling.level.site);
    if window.to <= window.from {
        return;
    }
    if is_single(sheet.measures.budgets as usize, sheet.splits, filling.left) {
        let t = least_open(work, filling, p, window, work[base]);
        work[base] = t;
        return;
    }
    for k in window.from..window.to {
        open_slot(work, filling, p, base, k);
    }
}

// Fills the row of a strip, which begins at the word `base`, from the level below, if it is marked.
pub fn fill_row(work: &mut [u32], filling: &Filling, p: Strip, base: usize)
    requires { RowFits (filled_at filling.now base) (strip_of p) (length work.old) }
    ensures { EntriesFilled (filled_at filling.now base) (strip_of p) work.old work.new }
{
    if work[base] != 1 {
        return;
    }
    let level = &filling.level;
    let sheet = level.sheet;
    let s = level.site;
    if !strips::is_inside(sheet, p, s) {
        let same = level.low + rows::row_place(sheet, p);
        copy_row(work, base, same, sheet.measures.budgets as usize);
        return;
    }
    start_joined(work, level, p, base);
    if strips::site_opens(sheet, p, s) {
        open_slots(work, filling, p, base);
    }
}
