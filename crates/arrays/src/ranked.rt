// An accepted sheet as all that lays it out reads it: its numbers in arrays, the sites by rising rank.
ghost use Rattle.std.specs.Prelude.{◌≡◌};
ghost use Rattle.arrays.specs.Given.{given, OfSheet, Bounded, Ranked};
ghost use Rattle.arrays.specs.Budgets.{SplitsOf};

use crate::Measures;
use crate::radices::Radices;
use crate::splits::Splits;

// The slots' heights; the colours' bounds, radices and draws; the sites' x, y and colours by rising rank, and their places in the sheet;
// what may be taken from each budget.
#[derive(Clone, Copy)]
pub struct RankedSheet<'a, 'r, 's> {
    pub measures: Measures,
    pub heights: &'a [u32],
    pub bounds: &'a [u32],
    pub radices: Radices<'r>,
    pub draws: &'a [u32],
    pub xs: &'a [u32],
    pub ys: &'a [u32],
    pub colours: &'a [u32],
    pub order: &'a [u32],
    pub splits: Splits<'s>,
    ghost of_sheet: { OfSheet (given measures heights.now bounds.now radices.list.now draws.now xs.now ys.now colours.now order.now splits.parts.now splits.counts.now) },
    ghost bounded: { Bounded (given measures heights.now bounds.now radices.list.now draws.now xs.now ys.now colours.now order.now splits.parts.now splits.counts.now) },
    ghost ranked: { Ranked (given measures heights.now bounds.now radices.list.now draws.now xs.now ys.now colours.now order.now splits.parts.now splits.counts.now) },
    ghost listed: { SplitsOf radices.list.now measures.budgets splits.parts.now splits.counts.now },
    ghost all_listed: { splits.budgets ≡ measures.budgets },
}
