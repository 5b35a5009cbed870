// The one-sided table in the lent work words: what the whole sheet leads to is marked, then filled level by level from the last up.
#![tactic(auto)]

ghost use Rattle.std.specs.Prelude.{◌≡◌, ◌+◌, ◌≤◌, length};
ghost use Rattle.arrays.specs.Given.{SiteIn};
ghost use Rattle.arrays.specs.Ranked.{given_of};
ghost use Rattle.rows.specs.Rows.{point_of};
ghost use Rattle.rows.specs.Level.{words_in};
ghost use Rattle.marks.specs.Marks.{EndIn, LevelAt, TableFits};
ghost use Rattle.entries.specs.Entries.{OpeningListed, RowIs};
ghost use Rattle.entries.specs.Filled.{filled_in};
ghost use Rattle.table.specs.Levels.{EndFilled, LevelFilled, SiteFilled, TableRight};

use areas::zero_part;
use arrays::ranked::RankedSheet;
use entries::filling::Filling;
use rows::budgets::list_left;
use rows::level::TableLevel;
use rows::{End, Site, Strip};
use words::MOST_SLOTS;

// Fills the marked rows below one upper end, if a strip may have it.
fn fill_below(work: &mut [u32], filling: &Filling, above: End)
    requires { let l = filled_in filling.now in (l.low + words_in l ≤ length work.old) × EndIn l above }
    ensures { EndFilled (filled_in filling.now) above work.old work.new }
{
    if !rows::is_upper_end(above) {
        return;
    }
    let sheet = filling.level.sheet;
    let q = sheet.measures;
    let n = q.budgets as usize;
    let ends = (sheet.heights.len() as u32) + 2;
    let mut p = Strip {
        a: above.slot,
        ca: above.colour,
        b: above.slot + 1,
        cb: 0,
        d: 0,
    };
    let mut at = filling.level.base + rows::row_place(sheet, p);
    // The strip and its row step together: a range over rows would take each row apart by division to find its strip.
    while p.b < ends {
        entries::fill_row(work, filling, p, at);
        at += n;
        p = rows::next_below(q.colours, p);
    }
}

// Fills the marked rows of a level from the level below it.
fn fill_level(work: &mut [u32], filling: &Filling)
    requires { let l = filled_in filling.now in l.low + words_in l ≤ length work.old }
    ensures { LevelFilled (filled_in filling.now) work.old work.new }
{
    let q = filling.level.sheet.measures;
    let ends = (filling.level.sheet.heights.len() as u32) + 1;
    // An end is two numbers, slot and colour: a range would go over their places and take each apart by division.
    let mut above = End { slot: 0, colour: 0 };
    while above.slot < ends {
        fill_below(work, filling, above);
        above = rows::next_end(q.colours, above);
    }
}

// Zeros a level.
fn zero_level(work: &mut [u32], base: usize, size: usize)
    requires { base + size ≤ length work.old }
    ensures { RowIs base size (λ i. 0) work.old work.new }
{
    zero_part(work, base, base + size);
}

// What it costs the site to open a label at each slot: no strip has a part in it, so it is worked out once for all of a level's.
fn opening_costs(sheet: &RankedSheet, s: Site) -> [u32; MOST_SLOTS]
    requires { SiteIn sheet.now.measures (point_of s) }
    ensures { OpeningListed sheet.now.measures sheet.now.heights.now (point_of s) result }
{
    let mut out = [0u32; MOST_SLOTS];
    for k in 0..sheet.heights.len() {
        out[k] = strips::open_cost(sheet, s, k as u32);
    }
    out
}

// Fills level j, where the site of rank j comes next, from level j + 1.
fn fill_site(work: &mut [u32], sheet: &RankedSheet, size: usize, j: usize)
    requires { let g = given_of sheet.now in TableFits g (length work.old) × LevelAt g size j }
    ensures { SiteFilled (given_of sheet.now) size j work.old work.new }
{
    let site = rows::site_at(sheet, j);
    let opening = opening_costs(sheet, site);
    let draw = words::get(sheet.draws, site.c);
    let left = list_left(sheet, draw);
    let level = TableLevel {
        sheet,
        site,
        base: j * size,
        low: (j + 1) * size,
    };
    let filling = Filling {
        level,
        left: &left,
        opening: &opening,
    };
    fill_level(work, &filling);
}

// Fills the table of the sites by rising rank, whatever the work words held.
pub fn fill_table(work: &mut [u32], sheet: &RankedSheet)
    requires { TableFits (given_of sheet.now) (length work.old) }
    ensures { TableRight (given_of sheet.now) work.old work.new }
{
    let rows = rows::rows_of(sheet);
    let size = rows * (sheet.measures.budgets as usize);
    let sites = sheet.xs.len();
    marks::mark_table(work, sheet, rows);
    zero_level(work, sites * size, size);
    for j in (0..sites).rev() {
        fill_site(work, sheet, size, j);
    }
}
