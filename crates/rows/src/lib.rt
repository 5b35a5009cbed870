// Strips of a one-sided sheet and where their rows stand: a level has a row of words for each strip, by the ends above and below it.
#![tactic(auto)]

pub mod budgets;
pub mod level;
pub mod rest;

ghost use Rattle.std.specs.Prelude.{◌≡◌, List, ℕ, ◌+◌, ◌*◌, ◌<◌, ◌≤◌, length};
ghost use Rattle.sheet.specs.Limits.{most_slots, most_colours, most_budgets};
ghost use Rattle.optimum.specs.Strips as model;
ghost use Rattle.optimum.specs.OneSided.{mark_count};
ghost use Rattle.arrays.specs.Arrays.{instance_by};
ghost use Rattle.arrays.specs.declared.Measures as measured;
ghost use Rattle.arrays.specs.Given.{point_in};
ghost use Rattle.arrays.specs.Ranked.{given_of, slot_count, colour_count};
ghost use Rattle.rows.specs.Rows.{strip_of, point_of, row_of, rows_of, level_of, most_place, Lies, marked_by, upper_part, lower_part, end_place, low_place, upper_end};

use arrays::ranked::RankedSheet;
use tips::barred_of;

// How many marks a strip may have, optimum/specs/OneSided has the number for definitions; and the last of them.
const MARK_COUNT: usize = 1;

pub const LAST_MARK: u32 = 0;

// That a strip lies between edges or labels of a sheet (Lies) and that a site is a sheet's (SiteIn) ties two values, so each stays a clause
// of the functions that take both.

// A strip: the labels above and below it (0: the top edge, k + 1: slot k, m + 1: the bottom edge) and their colours (0: none, c + 1: colour c);
// d is the mark that the last site tied in it left.
#[derive(Clone, Copy)]
pub struct Strip {
    pub a: u32,
    pub ca: u32,
    pub b: u32,
    pub cb: u32,
    pub d: u32,
}

// A site: x, y, its colour, and the set of slots (bit k: slot k) at which it may open no label.
#[derive(Clone, Copy)]
pub struct Site {
    pub x: u32,
    pub y: u32,
    pub c: u32,
    pub barred: u64,
}

// An end of a strip: an edge or a label, by its slot (0 the top edge, k + 1 slot k, m + 1 the bottom edge) and its colour (0 none, c + 1 colour c).
#[derive(Clone, Copy)]
pub struct End {
    pub slot: u32,
    pub colour: u32,
}

// Where the rows of a strip's two parts begin.
#[derive(Drop)]
pub struct PartRows {
    pub upper: usize,
    pub lower: usize,
}

// The site of rank j.
pub fn site_at(sheet: &RankedSheet, j: usize) -> Site
    requires { j < length sheet.now.xs.now }
    ensures { point_of result ≡ point_in (given_of sheet.now) j }
{
    Site {
        x: sheet.xs[j],
        y: sheet.ys[j],
        c: sheet.colours[j],
        barred: barred_of(sheet, j),
    }
}

// How many rows a level has.
#[tactic(auto, unfolding(optimum::specs::OneSided::mark_count))]
pub fn rows_of(sheet: &RankedSheet) -> usize
    ensures { result ≡ rows_of (slot_count sheet.now) (colour_count sheet.now) }
{
    let colours = sheet.measures.colours as usize + 1;
    let ends = sheet.heights.len() + 2;
    ends * colours * ends * colours * MARK_COUNT
}

// The place of a strip's row in a level of m slots. REST is folded without a sheet, so this asks for none.
fn place_of(m: usize, colours: u32, budgets: u32, p: Strip) -> usize
    requires few { (m ≤ most_slots) × (colours ≤ most_colours) × (budgets ≤ most_budgets) }
    requires lies { Lies m colours (strip_of p) }
    ensures { result ≡ row_of m colours (strip_of p) * budgets }
{
    let colours = colours as usize + 1;
    let ends = m + 2;
    let upper = p.a as usize * colours + p.ca as usize;
    let strip = (upper * ends + p.b as usize) * colours + p.cb as usize;
    (strip * MARK_COUNT + p.d as usize) * budgets as usize
}

// The place of a strip's row in its level.
pub fn row_place(sheet: &RankedSheet, p: Strip) -> usize
    requires { Lies (slot_count sheet.now) (colour_count sheet.now) (strip_of p) }
    ensures { result ≡ row_of (slot_count sheet.now) (colour_count sheet.now) (strip_of p) * sheet.now.measures.budgets }
{
    let q = sheet.measures;
    place_of(sheet.heights.len(), q.colours, q.budgets, p)
}

// A strip with another mark.
pub fn marked_by(p: Strip, d: u32) -> Strip
    ensures { strip_of result ≡ marked_by d (strip_of p) }
{
    Strip { d, ..p }
}

// The places of the rows of the two parts that a label at slot k leaves of a strip; the site leaves the mark d in the upper one.
pub fn part_places(sheet: &RankedSheet, p: Strip, s: Site, low: usize, k: u32, d: u32) -> PartRows
    requires level_fits { low + level_of sheet.now.measures sheet.now.heights.now ≤ most_place }
    requires lies { Lies (slot_count sheet.now) (colour_count sheet.now) (strip_of p) × (s.c < sheet.now.measures.colours) × (k + 1 < p.b) × (d < mark_count) }
    ensures places { let m = slot_count sheet.now in
        let C = colour_count sheet.now in
        (result.upper ≡ low + row_of m C (upper_part d (strip_of p) (point_of s) k) * sheet.now.measures.budgets)
        × (result.lower ≡ low + row_of m C (lower_part (strip_of p) (point_of s) k) * sheet.now.measures.budgets) }
    ensures within { (result.upper < low + level_of sheet.now.measures sheet.now.heights.now) × (result.lower < low + level_of sheet.now.measures sheet.now.heights.now) }
{
    let c = s.c + 1;
    let upper = Strip {
        b: k + 1,
        cb: c,
        d,
        ..p
    };
    let lower = Strip {
        a: k + 1,
        ca: c,
        d: 0,
        ..p
    };
    PartRows {
        upper: low + row_place(sheet, upper),
        lower: low + row_place(sheet, lower),
    }
}

// The end that comes next: of the same slot, or the first of the next.
pub fn next_end(colours: u32, e: End) -> End
    requires { (colours ≤ most_colours) × (e.slot ≤ most_slots + 2) × (e.colour ≤ colours) }
    ensures { (result.colour ≤ colours) × (end_place colours result.slot result.colour ≡ end_place colours e.slot e.colour + 1) }
{
    if e.colour < colours {
        return End {
            colour: e.colour + 1,
            ..e
        };
    }
    End {
        slot: e.slot + 1,
        colour: 0,
    }
}

// The strip below the same upper end whose row comes next: by the mark, then by the lower end.
#[tactic(auto, unfolding(optimum::specs::OneSided::mark_count))]
pub fn next_below(colours: u32, p: Strip) -> Strip
    requires { (colours ≤ most_colours) × (p.b ≤ most_slots + 2) × (p.cb ≤ colours) × (p.d < mark_count) }
    ensures { (result.a ≡ p.a) × (result.ca ≡ p.ca) × (result.cb ≤ colours) × (result.d < mark_count) × (low_place colours (strip_of result) ≡ low_place colours (strip_of p) + 1) }
{
    if (p.d as usize) + 1 < MARK_COUNT {
        return Strip { d: p.d + 1, ..p };
    }
    let lower = End {
        slot: p.b,
        colour: p.cb,
    };
    let e = next_end(colours, lower);
    Strip {
        b: e.slot,
        cb: e.colour,
        d: 0,
        ..p
    }
}

#[tactic(auto, unfolding(crate::specs::Rows::upper_end))]
pub fn is_upper_end(e: End) -> bool
    ensures { result ≡ upper_end e.slot e.colour }
{
    if e.slot == 0 {
        e.colour == 0
    } else {
        0 < e.colour
    }
}

// The strip that holds the height y, with its mark.
pub fn hold_of(sheet: &RankedSheet, labels: &[u32], marks: &[u32], y: u32) -> Strip
    requires { length labels.now ≡ length sheet.now.heights.now }
    ensures { (q : measured.Measures) (bs rs ds : List ℕ) → strip_of result ≡ model.hold (instance_by q sheet.now.heights.now bs rs ds) labels.now marks.now y }
{
    let mut a = 0;
    let mut ca = 0;
    for (i, &cb) in labels.iter().enumerate() {
        if cb != 0 {
            let b = i as u32 + 1;
            if y < sheet.heights[i] {
                let d = words::get(marks, a);
                return Strip { a, ca, b, cb, d };
            }
            a = b;
            ca = cb;
        }
    }
    let b = labels.len() as u32 + 1;
    let d = words::get(marks, a);
    Strip { a, ca, b, cb: 0, d }
}
