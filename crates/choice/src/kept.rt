// Whether a step of the one-sided walk keeps the least cost.
ghost use Rattle.std.specs.Prelude.{◌≡◌, set};
ghost use Rattle.choice.specs.Choice.{MarksIn, TriedIn, marked_at, comes_to};

use arrays::splits::Splits;
use costs::comes_to;
use rows::rest::rest_of;
use strips::Step;

// A site tied to a slot: the place above its strip, the mark that it leaves there, and its colour (c + 1: colour c).
#[derive(Clone, Copy)]
pub struct Tie {
    pub slot: u32,
    pub above: u32,
    pub mark: u32,
    pub colour: u32,
}

// Writes the marks after a tie.
pub fn write_marks(labels: &[u32], marks: &mut [u32], tie: Tie)
    requires { MarksIn labels.now marks.old tie.above tie.slot }
    ensures { marks.new ≡ marked_at labels.now marks.old tie.above tie.mark tie.slot }
{
    let at = tie.slot as usize;
    let below = at + 1;
    let above = tie.above as usize;
    let old = marks[below];
    marks[below] = if labels[at] == 0 { 0 } else { old };
    marks[above] = tie.mark;
}

// The step that a tie makes comes to `cost` with REST after it, whose level begins at the word `base`. REST asks for no sheet, and so does this.
// A step that is not lawful keeps no cost, so REST is not asked for.
pub fn keeps_cost(
    splits: Splits,
    colours: u32,
    work: &[u32],
    base: usize,
    labels: &mut [u32],
    marks: &mut [u32],
    tie: Tie,
    step: Step,
    cost: u32,
) -> bool
    requires { TriedIn work.now base colours splits.budgets labels.old marks.old tie step.left cost }
    ensures value { let after = marked_at labels.old marks.old tie.above tie.mark tie.slot in
        let L = set labels.old tie.slot tie.colour in
        result ≡ comes_to splits.entry.parts.now splits.entry.counts.now work.now base colours splits.entry.budgets L after step.left step.price cost }
    ensures labels_unchanged { labels.new ≡ labels.old }
    ensures marks_unchanged { marks.new ≡ marks.old }
{
    if step.price == words::NONE {
        return false;
    }
    let at = tie.slot as usize;
    let below = at + 1;
    let above = tie.above as usize;
    let old = labels[at];
    let old_below = marks[below];
    let old_above = marks[above];
    write_marks(labels, marks, tie);
    labels[at] = tie.colour;
    let after = rest_of(splits, colours, work, base, labels, marks, step.left);
    labels[at] = old;
    marks[above] = old_above;
    marks[below] = old_below;
    comes_to(step.price, after, cost)
}
