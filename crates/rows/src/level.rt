// A level of the one-sided table as one value: the site that comes next, where the level begins, and where the level below it does.
ghost use Rattle.std.specs.Prelude.{◌+◌, ◌≤◌};
ghost use Rattle.arrays.specs.Given.{SiteIn};
ghost use Rattle.rows.specs.Rows.{point_of, level_of};

use crate::Site;
use arrays::ranked::RankedSheet;

// The level is marked or filled from the word `base` on; the level below it begins at the word `low`.
#[derive(Clone, Copy)]
pub struct TableLevel<'a> {
    pub sheet: &'a RankedSheet<'a, 'a, 'a>,
    pub site: Site,
    pub base: usize,
    pub low: usize,
    ghost site_in: { SiteIn sheet.now.measures (point_of site) },
    ghost apart: { base + level_of sheet.now.measures sheet.now.heights.now ≤ low },
}
