// The layout of a one-sided sheet: the arrays, the table, the walk, and the areas as they are left.
#![tactic(auto)]

ghost use Rattle.std.specs.Prelude.{◌≡◌, length};
ghost use Rattle.decoding.specs.Decoding.{sheet_by};
ghost use Rattle.arrays.specs.Ranked.{given_of};
ghost use Rattle.faults.specs.Refusals.{number_in};
ghost use Rattle.walk.specs.Laid.{laid_fault, laid_work, laid_out};
ghost use Rattle.onesided.specs.Laying.{TakesOneSided, MadeBy, RankedSites, LaysOut};

use areas::zero_part;
use arrays::radices::Radices;
use arrays::ranked::RankedSheet;
use arrays::splits::{BUDGETS_LENGTH, SPLITS_LENGTH, Splits};
use arrays::{Measures, draws_of, gathered_of, order_of, radices_of, ranks_of};
use decoding::Numbers;
use faults::refusal::Refusal;
use rows::budgets::list_splits;
use rows::rest::level_size;

// Lays out a ranked sheet.
fn lay_ranked(sheet: &RankedSheet, work: &mut [u32], out: &mut [u32]) -> Result<(), Refusal>
    requires { LaysOut (given_of sheet.now) (length work.old) out.old }
    ensures value { number_in result ≡ laid_fault (given_of sheet.now) }
    ensures work_after { work.new ≡ laid_work (given_of sheet.now) work.old }
    ensures out_after { out.new ≡ laid_out (given_of sheet.now) out.old }
{
    table::fill_table(work, sheet);
    let laid = walk::answer::lay_least(sheet, work, out);
    let size = level_size(sheet);
    zero_part(work, 0, (sheet.order.len() + 1) * size);
    laid
}

// What the layout maker does with the numbers of an accepted one-sided sheet, whose sites are given by rising rank.
fn lay_sites<'a>(
    numbers: Numbers,
    budgets: u32,
    xs: &'a [u32],
    ys: &'a [u32],
    colours: &'a [u32],
    order: &'a [u32],
    work: &mut [u32],
    out: &mut [u32],
) -> Result<(), Refusal>
    requires takes_one_sided { TakesOneSided numbers budgets work.old out.old }
    requires ranked_sites { RankedSites (sheet_by numbers) xs.now ys.now colours.now order.now }
    ensures { MadeBy numbers work.old out.old (number_in result) work.new out.new }
{
    let head = numbers.head;
    let count = numbers.kinds;
    let measures = Measures {
        head,
        colours: count as u32,
        budgets,
    };
    let slots = numbers.slots;
    let heights = numbers.heights;
    let bounds = numbers.bounds();
    let bounds = &bounds[..count];
    let radices = radices_of(bounds);
    let draws = draws_of(bounds);
    let radices = Radices {
        list: &radices[..count],
    };
    let mut parts = [0; SPLITS_LENGTH];
    let mut counts = [0; BUDGETS_LENGTH];
    list_splits(radices, budgets as usize, &mut parts, &mut counts);
    let splits = Splits {
        budgets,
        parts: &parts,
        counts: &counts,
    };
    let sheet = RankedSheet {
        measures,
        heights: &heights[..slots],
        bounds,
        radices,
        draws: &draws[..count],
        xs,
        ys,
        colours,
        order,
        splits,
    };
    lay_ranked(&sheet, work, out)
}

// What the layout maker does with the numbers of an accepted one-sided sheet and its P, its areas long enough.
pub fn lay_one_sided(
    numbers: Numbers,
    budgets: u32,
    work: &mut [u32],
    out: &mut [u32],
) -> Result<(), Refusal>
    requires { TakesOneSided numbers budgets work.old out.old }
    ensures { MadeBy numbers work.old out.old (number_in result) work.new out.new }
{
    let sites = numbers.sites;
    let xs = numbers.xs();
    let ys = numbers.ys();
    let site_colours = numbers.site_colours();
    let xs = &xs[..sites];
    let ys = &ys[..sites];
    let ranks = ranks_of(xs, ys);
    let order = order_of(&ranks[..sites]);
    let order = &order[..sites];
    let ranked_xs = gathered_of(xs, order);
    let ranked_ys = gathered_of(ys, order);
    let ranked_colours = gathered_of(&site_colours[..sites], order);
    lay_sites(
        numbers,
        budgets,
        &ranked_xs[..sites],
        &ranked_ys[..sites],
        &ranked_colours[..sites],
        order,
        work,
        out,
    )
}
