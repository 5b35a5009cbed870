// The layout maker: refusals 1 to 7, 18, 8 and 9, then the table and the walk, on the sheet without the bounds that can't bind.
// `make_layout` asks nothing of its caller. What has a `requires` below it, here and in other crates, is internal to the maker.
#![tactic(auto)]

mod binding;

ghost use Rattle.std.specs.Prelude.{◌≡◌};
ghost use Rattle.labelling.specs.Entry.{make_fault, make_answer, make_work};
ghost use Rattle.faults.specs.Refusals.{number_in};
ghost use Rattle.onesided.specs.Laying.{MadeBy};
ghost use Rattle.maker.specs.Taken.{Taken};

use crate::binding::binding_numbers;
use areas::zero_part;
use decoding::Numbers;
use faults::maker::maker_fault;
use faults::refusal::Refusal;
use onesided::lay_one_sided;
use reader::opened::open_sheet;
use reader::sizes_of;
use refusals::refusal_18::is_two_sided;
use sizes::{product_of, work_for};

// The numbers of an accepted one-sided sheet, its areas long enough: laid out without the bounds that can't bind. Where P falls, fewer
// work words are needed, so the rest is zeroed.
fn lay_binding(
    numbers: Numbers,
    needed: usize,
    work: &mut [u32],
    out: &mut [u32],
) -> Result<(), Refusal>
    requires { Taken numbers needed work.old out.old }
    ensures { MadeBy numbers work.old out.old (number_in result) work.new out.new }
{
    let kept = binding_numbers(numbers);
    let kinds = kept.kinds;
    let bounds = kept.bounds();
    let budgets = product_of(&bounds[..kinds]);
    let table = work_for(
        false,
        kept.slots as u32,
        kinds as u32,
        kept.sites as u32,
        budgets,
    );
    let laid = lay_one_sided(kept, budgets, work, out);
    zero_part(work, table as usize, needed);
    laid
}

// The best of all layouts in the first n + 1 answer words, or a refusal.
fn lay_sheet(sheet: &[u32], work: &mut [u32], out: &mut [u32]) -> Result<(), Refusal>
    ensures value { number_in result ≡ make_fault sheet.now work.old out.old }
    ensures work_after { work.new ≡ make_work sheet.now work.old out.old }
    ensures out_after { out.new ≡ make_answer sheet.now work.old out.old }
{
    let numbers = open_sheet(sheet)?;
    let sizes = sizes_of(&numbers);
    let needed = sizes.work as usize;
    maker_fault(
        is_two_sided(sheet),
        needed,
        sizes.n as usize,
        work.len(),
        out.len(),
    )?;
    lay_binding(numbers, needed, work, out)
}

// 0 with the best of all layouts in the first n + 1 answer words, or the number of a refusal, 1 to 10 or 18: a number, as C has it and as
// `make_fault` states it.
pub fn make_layout(sheet: &[u32], work: &mut [u32], out: &mut [u32]) -> u8
    ensures value { result ≡ make_fault sheet.now work.old out.old }
    ensures work_after { work.new ≡ make_work sheet.now work.old out.old }
    ensures out_after { out.new ≡ make_answer sheet.now work.old out.old }
{
    match lay_sheet(sheet, work, out) {
        Ok(()) => 0,
        Err(refusal) => refusal.number(),
    }
}
