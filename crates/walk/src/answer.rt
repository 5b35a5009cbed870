// From a filled table to the answer: the least cost, and the layout's words.
ghost use Rattle.std.specs.Prelude.{◌≡◌};
ghost use Rattle.arrays.specs.Ranked.{given_of};
ghost use Rattle.faults.specs.Refusals.{number_in};
ghost use Rattle.walk.specs.Laid.{laid_fault, laid_out, FilledIn};

use arrays::ranked::RankedSheet;
use choice::Left;
use costs::{first_word, is_none};
use faults::refusal::Refusal;
use rows::rest::rest_of;

// An array with a mark for each place above a strip: the top edge and each slot.
const MARKS_LENGTH: usize = words::MOST_SLOTS + 1;

// Reads the least cost off the filled table, and writes the layout of it: its first word, and the ties of the walk. NoLayout, if there is none.
pub fn lay_least(sheet: &RankedSheet, work: &[u32], out: &mut [u32]) -> Result<(), Refusal>
    requires { FilledIn (given_of sheet.now) work.now out.old }
    ensures value { number_in result ≡ laid_fault (given_of sheet.now) }
    ensures out_after { out.new ≡ laid_out (given_of sheet.now) out.old }
{
    let v = sheet.measures.budgets - 1;
    let m = sheet.heights.len();
    let mut labels = [0u32; words::MOST_SLOTS];
    let places = m + 1;
    let mut marks = [0u32; MARKS_LENGTH];
    let colours = sheet.measures.colours;
    let least = rest_of(
        sheet.splits,
        colours,
        work,
        0,
        &labels[..m],
        &marks[..places],
        v,
    );
    if is_none(least) {
        return Err(Refusal::NoLayout);
    }
    out[0] = first_word(sheet.measures, least);
    let whole = Left {
        budget: v,
        cost: least,
    };
    crate::walk(
        sheet,
        work,
        &mut labels[..m],
        &mut marks[..places],
        out,
        0,
        whole,
    );
    Ok(())
}
