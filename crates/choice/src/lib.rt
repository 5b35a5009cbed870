// One step of the one-sided walk: the lowest slot that keeps the least cost.
#![tactic(auto)]

pub mod kept;

ghost use Rattle.std.specs.Prelude.{◌≡◌};
ghost use Rattle.arrays.specs.Ranked.{given_of};
ghost use Rattle.rows.specs.Rows.{strip_of, point_of};
ghost use Rattle.choice.specs.Choice.{ChosenIn, lowest_kept};

use crate::kept::{Tie, keeps_cost};
use arrays::ranked::RankedSheet;
use rows::{Site, Strip};

// What is left for the sites that are not tied yet: the budget, and what they are to cost.
#[derive(Clone, Copy)]
pub struct Left {
    pub budget: u32,
    pub cost: u32,
}

// The lowest slot that keeps the least cost, for a site in its strip; the level below begins at the word `base`.
pub fn choose_slot(
    sheet: &RankedSheet,
    work: &[u32],
    base: usize,
    labels: &mut [u32],
    marks: &mut [u32],
    p: Strip,
    s: Site,
    left: Left,
) -> u32
    requires { ChosenIn (given_of sheet.now) work.now base labels.old marks.old p.a (point_of s) left }
    ensures value { result ≡ lowest_kept (given_of sheet.now) work.now base (strip_of p) (point_of s) labels.old marks.old left }
    ensures labels_unchanged { labels.new ≡ labels.old }
    ensures marks_unchanged { marks.new ≡ marks.old }
{
    let m = sheet.heights.len() as u32;
    for k in 0..m {
        let tie = Tie {
            slot: k,
            above: p.a,
            mark: strips::turn_at(sheet, s, k),
            colour: s.c + 1,
        };
        let step = strips::step_of(sheet, p, s, left.budget, k);
        if keeps_cost(
            sheet.splits,
            sheet.measures.colours,
            work,
            base,
            labels,
            marks,
            tie,
            step,
            left.cost,
        ) {
            return k;
        }
    }
    m
}
