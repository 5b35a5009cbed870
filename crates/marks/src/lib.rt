// Marks, in the first word of its row, each strip that the whole sheet leads to, level by level from the first down.
#![tactic(auto)]

ghost use Rattle.std.specs.Prelude.{◌≡◌, ◌+◌, ◌*◌, ◌<◌, ◌≤◌, length};
ghost use Rattle.sheet.specs.Limits.{most_sites, most_budgets};
ghost use Rattle.arrays.specs.Ranked.{given_of};
ghost use Rattle.rows.specs.Rows.{strip_of, point_of, rows_of, level_of, LevelFits};
ghost use Rattle.rows.specs.Level.{level_in, row_at, words_in};
ghost use Rattle.marks.specs.Marks.{EndIn, KeptFrom, StripMarked, JoinsMarked, WindowMarked, StripFits, MarkReady, RowLed, EndLed, LevelLed};
ghost use Rattle.marks.specs.Marks.{TableFits, LevelAt, SiteLed, SheetMarked};

use areas::zero_part;
use arrays::ranked::RankedSheet;
use rows::level::TableLevel;
use rows::{End, Strip};
use strips::Window;
use words::NONE;

// Marks a strip, if it is to be.
fn mark_own(work: &mut [u32], sheet: &RankedSheet, p: Strip, low: usize, stays: bool)
    requires { StripFits (given_of sheet.now) low (strip_of p) (length work.old) }
    ensures { StripMarked (given_of sheet.now) low (strip_of p) stays work.old work.new }
{
    if !stays {
        return;
    }
    let at = low + rows::row_place(sheet, p);
    work[at] = 1;
}

// Marks the strip as the level's site leaves it that joins the label above, and the label below, where that is lawful.
fn mark_joins(work: &mut [u32], level: &TableLevel, p: Strip)
    requires { StripFits (given_of level.now.sheet.now) level.now.low (strip_of p) (length work.old) }
    ensures { JoinsMarked (level_in level.now) (strip_of p) work.old work.new }
{
    let sheet = level.sheet;
    let s = level.site;
    let up = strips::risen_of(sheet, p, s);
    let rises = strips::rise_cost(sheet, p, s) < NONE;
    mark_own(work, sheet, up, level.low, rises);
    let down = strips::fallen_of(sheet, p, s);
    let falls = strips::fall_cost(sheet, p, s) < NONE;
    mark_own(work, sheet, down, level.low, falls);
}

// Marks the parts that a label leaves of a strip, at each slot of a window that is not barred to the level's site.
fn mark_window(work: &mut [u32], level: &TableLevel, p: Strip, window: Window)
    requires strip_fits { StripFits (given_of level.now.sheet.now) level.now.low (strip_of p) (length work.old) }
    requires window_low { window.from < window.to → window.to < p.b }
    ensures { WindowMarked (level_in level.now) (strip_of p) window work.old work.new }
{
    let sheet = level.sheet;
    let s = level.site;
    for k in window.from..window.to {
        if strips::is_barred(s, k) {
            continue;
        }
        let turn = strips::turn_at(sheet, s, k);
        parts::mark_parts(work, sheet, p, s, level.low, k, turn);
    }
}

// Marks what a strip asks for if its row, which begins at the word `at` of the level, is marked: itself, as the site leaves it that joins, or the parts that a label leaves.
fn mark_row(work: &mut [u32], level: &TableLevel, p: Strip, at: usize)
    requires { MarkReady (row_at level.now at) (strip_of p) (length work.old) }
    ensures { RowLed (row_at level.now at) (strip_of p) work.old work.new }
{
    if work[at] != 1 {
        return;
    }
    let sheet = level.sheet;
    let s = level.site;
    if !strips::is_inside(sheet, p, s) {
        mark_own(work, sheet, p, level.low, true);
        return;
    }
    mark_joins(work, level, p);
    if strips::site_opens(sheet, p, s) {
        let window = strips::open_window(sheet, p, s);
        mark_window(work, level, p, window);
    }
}

// Follows the marked strips below one upper end, if a strip may have it.
fn follow_below(work: &mut [u32], level: &TableLevel, above: End)
    requires { let l = level_in level.now in (l.low + words_in l ≤ length work.old) × EndIn l above }
    ensures { EndLed (level_in level.now) above work.old work.new }
{
    if !rows::is_upper_end(above) {
        return;
    }
    let sheet = level.sheet;
    let q = sheet.measures;
    let n = q.budgets as usize;
    let ends = (sheet.heights.len() as u32) + 2;
    let mut p = Strip {
        a: above.slot,
        ca: above.colour,
        b: above.slot + 1,
        cb: 0,
        d: 0,
    };
    let mut at = level.base + rows::row_place(sheet, p);
    // The strip and its row step together: a range over rows would take each row apart by division to find its strip.
    while p.b < ends {
        mark_row(work, level, p, at);
        at += n;
        p = rows::next_below(q.colours, p);
    }
}

// Follows the marked strips of a level.
fn follow_level(work: &mut [u32], level: &TableLevel)
    requires { let l = level_in level.now in l.low + words_in l ≤ length work.old }
    ensures { LevelLed (level_in level.now) work.old work.new }
{
    let q = level.sheet.measures;
    let ends = (level.sheet.heights.len() as u32) + 1;
    // An end is two numbers, slot and colour: a range would go over their places and take each apart by division.
    let mut above = End { slot: 0, colour: 0 };
    while above.slot < ends {
        follow_below(work, level, above);
        above = rows::next_end(q.colours, above);
    }
}

// Clears the first word of each row of n words, from a word up to another. Rows of one word are zeroed as a part of the area, which is
// compiled to a loop that clears many at a time.
fn clear_rows(work: &mut [u32], from: usize, to: usize, n: usize)
    requires { (to ≤ length work.old) × (0 < n) × (n ≤ most_budgets) }
    ensures { KeptFrom to work.old work.new }
{
    if (n == 1) & (from <= to) {
        zero_part(work, from, to);
        return;
    }
    for at in (from..to).step_by(n) {
        work[at] = 0;
    }
}

// Clears the marks below one upper end, if a strip may have it: those that are looked at, half of all.
fn clear_below(work: &mut [u32], sheet: &RankedSheet, above: End, base: usize)
    requires { let g = given_of sheet.now in
        (base + level_of g.measures g.heights ≤ length work.old) × (above.slot ≤ length g.heights) × (above.colour ≤ g.measures.colours) }
    ensures { KeptFrom (base + level_of sheet.now.measures sheet.now.heights.now) work.old work.new }
{
    if !rows::is_upper_end(above) {
        return;
    }
    let q = sheet.measures;
    let first = Strip {
        a: above.slot,
        ca: above.colour,
        b: above.slot + 1,
        cb: 0,
        d: 0,
    };
    let last = Strip {
        b: (sheet.heights.len() as u32) + 1,
        cb: q.colours,
        d: rows::LAST_MARK,
        ..first
    };
    let n = q.budgets as usize;
    let from = base + rows::row_place(sheet, first);
    let to = base + rows::row_place(sheet, last) + n;
    clear_rows(work, from, to, n);
}

// Clears the marks of a level.
fn clear_level(work: &mut [u32], sheet: &RankedSheet, base: usize)
    requires { base + level_of sheet.now.measures sheet.now.heights.now ≤ length work.old }
    ensures { KeptFrom (base + level_of sheet.now.measures sheet.now.heights.now) work.old work.new }
{
    let q = sheet.measures;
    let ends = (sheet.heights.len() as u32) + 1;
    // An end is two numbers, slot and colour: a range would go over their places and take each apart by division.
    let mut above = End { slot: 0, colour: 0 };
    while above.slot < ends {
        clear_below(work, sheet, above, base);
        above = rows::next_end(q.colours, above);
    }
}

// Clears the marks of so many levels, each of `size` words.
fn clear_marks(work: &mut [u32], sheet: &RankedSheet, size: usize, levels: usize)
    requires few_levels { (levels ≤ most_sites + 1) × (levels * size ≤ length work.old) }
    requires level_words { size ≡ level_of sheet.now.measures sheet.now.heights.now }
    ensures { KeptFrom (levels * size) work.old work.new }
{
    for j in 0..levels {
        clear_level(work, sheet, j * size);
    }
}

// Marks what level j leads to, where the site of rank j comes next.
fn mark_site(work: &mut [u32], sheet: &RankedSheet, size: usize, j: usize)
    requires { let g = given_of sheet.now in TableFits g (length work.old) × LevelAt g size j }
    ensures { SiteLed (given_of sheet.now) size j work.old work.new }
{
    let site = rows::site_at(sheet, j);
    let level = TableLevel {
        sheet,
        site,
        base: j * size,
        low: (j + 1) * size,
    };
    follow_level(work, &level);
}

// Marks all that the whole sheet leads to, level by level, whatever the work words held; levels of so many rows.
pub fn mark_table(work: &mut [u32], sheet: &RankedSheet, rows: usize)
    requires { let g = given_of sheet.now in TableFits g (length work.old) × (rows ≡ rows_of (length g.heights) g.measures.colours) }
    ensures { SheetMarked (given_of sheet.now) work.old work.new }
{
    let n = sheet.measures.budgets as usize;
    let size = rows * n;
    let sites = sheet.xs.len();
    clear_marks(work, sheet, size, sites + 1);
    let whole = Strip {
        a: 0,
        ca: 0,
        b: (sheet.heights.len() as u32) + 1,
        cb: 0,
        d: 0,
    };
    mark_own(work, sheet, whole, 0, true);
    for j in 0..sites {
        mark_site(work, sheet, size, j);
    }
}
