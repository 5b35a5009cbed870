// A level of the table as it is filled.
ghost use Rattle.std.specs.Prelude.{◌≤◌, length};
ghost use Rattle.rows.specs.Rows.{point_of};
ghost use Rattle.entries.specs.Entries.{OpeningListed};

use rows::level::TableLevel;

// What a label of the site's colour leaves of each budget, and what it costs the site to open one at each slot.
#[derive(Clone, Copy)]
pub struct Filling<'a, 'b> {
    pub level: TableLevel<'a>,
    pub left: &'b [u8],
    pub opening: &'b [u32],
    ghost left_long: { level.sheet.now.measures.budgets ≤ length left.now },
    ghost opening_listed: { OpeningListed level.sheet.now.measures level.sheet.now.heights.now (point_of level.site) opening.now },
}
