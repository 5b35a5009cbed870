// The one-sided walk: ties the sites one after the other by rising rank, each to the lowest slot that keeps the least cost.
#![tactic(auto)]

pub mod answer;

ghost use Rattle.std.specs.Prelude.{◌≡◌, ◌+◌, ◌<◌, length};
ghost use Rattle.arrays.specs.Ranked.{given_of};
ghost use Rattle.walk.specs.Walk.{LevelsFit, Standing, tied_from};

use arrays::ranked::RankedSheet;
use choice::kept::{Tie, write_marks};
use choice::{Left, choose_slot};
use rows::rest::level_size;

// Ties the site of rank j, and says what is left. The labels and their marks are lent: they are parts of arrays as long as the sheet is high.
fn tie_site(
    sheet: &RankedSheet,
    work: &[u32],
    labels: &mut [u32],
    marks: &mut [u32],
    out: &mut [u32],
    j: usize,
    left: Left,
) -> Left
    requires levels_fit { LevelsFit (given_of sheet.now) work.now }
    requires standing { Standing (given_of sheet.now) work.now labels.old marks.old out.old j left.budget left.cost × (j < length sheet.now.order.now) }
    ensures stands { Standing (given_of sheet.now) work.now labels.new marks.new out.new (j + 1) result.budget result.cost }
    ensures budget_value { let g = given_of sheet.now in
        tied_from g work.now labels.old marks.old out.old j left.budget ≡ tied_from g work.now labels.new marks.new out.new (j + 1) result.budget }
{
    let s = rows::site_at(sheet, j);
    let p = rows::hold_of(sheet, labels, marks, s.y);
    let size = level_size(sheet);
    let base = (j + 1) * size;
    let k = choose_slot(sheet, work, base, labels, marks, p, s, left);
    let step = strips::step_of(sheet, p, s, left.budget, k);
    areas::ties::write_tie(sheet.order, out, j, k);
    let tie = Tie {
        slot: k,
        above: p.a,
        mark: strips::turn_at(sheet, s, k),
        colour: s.c + 1,
    };
    write_marks(labels, marks, tie);
    let slot = k as usize;
    labels[slot] = tie.colour;
    Left {
        budget: step.left,
        cost: left.cost.saturating_sub(step.price),
    }
}

// THE WALK: ties the sites from rank j on, one a call, so that the number of untied sites falls.
pub fn walk(
    sheet: &RankedSheet,
    work: &[u32],
    labels: &mut [u32],
    marks: &mut [u32],
    out: &mut [u32],
    j: usize,
    left: Left,
)
    requires { let g = given_of sheet.now in
        LevelsFit g work.now × Standing g work.now labels.old marks.old out.old j left.budget left.cost }
    ensures { out.new ≡ tied_from (given_of sheet.now) work.now labels.old marks.old out.old j left.budget }
{
    if j == sheet.order.len() {
        return;
    }
    let after = tie_site(sheet, work, labels, marks, out, j, left);
    walk(sheet, work, labels, marks, out, j + 1, after);
}
