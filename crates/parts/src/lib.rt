// The two parts that a label leaves of a strip: what they cost together, and their rows marked.
#![tactic(auto)]

ghost use Rattle.std.specs.Prelude.{◌≡◌, ◌+◌, ◌<◌, ◌≤◌, length};
ghost use Rattle.optimum.specs.OneSided.{mark_count};
ghost use Rattle.arrays.specs.Ranked.{slot_count, colour_count};
ghost use Rattle.rows.specs.Rows.{strip_of, point_of, level_of, row_in, Lies};
ghost use Rattle.parts.specs.Parts.{parts_cost, Marking, PartsMarked};

use arrays::ranked::RankedSheet;
use rows::{PartRows, Site, Strip, part_places};

// What the parts that a label at slot k leaves of a strip cost together, where there is but one budget; the site leaves the mark d in the upper one.
pub fn parts_cost(
    work: &[u32],
    sheet: &RankedSheet,
    p: Strip,
    s: Site,
    low: usize,
    k: u32,
    d: u32,
) -> u32
    requires level_fits { (low + level_of sheet.now.measures sheet.now.heights.now ≤ length work.now) × Lies (slot_count sheet.now) (colour_count sheet.now) (strip_of p) }
    requires c_lt_colours { (s.c < colour_count sheet.now) × (k + 1 < p.b) × (d < mark_count) }
    ensures { result ≡ parts_cost (row_in work.now low (slot_count sheet.now) (colour_count sheet.now) sheet.now.measures.budgets) (strip_of p) (point_of s) k d }
{
    let PartRows { upper, lower } = part_places(sheet, p, s, low, k, d);
    words::plus_of(work[upper], work[lower])
}

// Marks the two parts that a label at slot k leaves of a strip, the upper one with the mark d.
pub fn mark_parts(
    work: &mut [u32],
    sheet: &RankedSheet,
    p: Strip,
    s: Site,
    low: usize,
    k: u32,
    d: u32,
)
    requires level_fits { (low + level_of sheet.now.measures sheet.now.heights.now ≤ length work.old) × Lies (slot_count sheet.now) (colour_count sheet.now) (strip_of p) }
    requires c_lt_colours { (s.c < colour_count sheet.now) × (k + 1 < p.b) × (d < mark_count) }
    ensures marking { Marking work.old work.new low (level_of sheet.now.measures sheet.now.heights.now) }
    ensures parts_marked { PartsMarked sheet.now.measures work.new low (slot_count sheet.now) (strip_of p) (point_of s) k d }
{
    let PartRows { upper, lower } = part_places(sheet, p, s, low, k, d);
    work[upper] = 1;
    work[lower] = 1;
}
