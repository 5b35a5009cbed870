// What the reader gives, compared with what documents 01 and 02 say; cases and differences are counted.
use reader::{Sizes, read_sheet};
use std::ops::AddAssign;
use std::{fmt, iter};

// A number of a tally is below this, 2^16.
const NUMBER_TOP: u32 = 65536;

// How many cases, and how many of them differ.
#[derive(Clone, Copy, Default)]
pub struct Tally {
    cases: u32,
    differ: u32,
}

impl Tally {
    // With one more case.
    pub fn count(&mut self, differs: bool) {
        self.cases = self.cases.saturating_add(1);
        self.differ = self.differ.saturating_add(u32::from(differs));
    }
}

impl AddAssign for Tally {
    fn add_assign(&mut self, other: Tally) {
        self.cases = self.cases.saturating_add(other.cases);
        self.differ = self.differ.saturating_add(other.differ);
    }
}

// Both numbers have 16 bits; where more differ, what is past them is added to the cases.
impl fmt::Display for Tally {
    fn fmt<W: fmt::Write>(&self, f: &mut fmt::Formatter<W>) -> fmt::Result {
        let both = self
            .cases
            .wrapping_mul(NUMBER_TOP)
            .wrapping_add(self.differ);
        let (cases, differ) = (both / NUMBER_TOP, both % NUMBER_TOP);
        write!(f, "{cases} cases, {differ} differ")
    }
}

// Does the reader give what is wanted: a refusal's number, n, m, C, P, the work words, and the bound and sites of each colour? All that
// is not said is 0.
fn is_wanted(sizes: Sizes, wanted: &[u32]) -> bool {
    let numbers = [
        u32::from(sizes.refusal),
        u32::from(sizes.n),
        u32::from(sizes.m),
        u32::from(sizes.c),
        u32::from(sizes.p),
        sizes.work,
    ];
    let colours = sizes.colours;
    let pairs = colours.iter().flat_map(|colour| [
        u32::from(colour.bound),
        u32::from(colour.sites),
    ]);
    let wanted = wanted.iter().copied().chain(iter::repeat(0));
    numbers
        .into_iter()
        .chain(pairs)
        .zip(wanted)
        .all(|(given, wanted)| given == wanted)
}

// How many words say what is wanted: a refusal's number alone, or 0, n, m, C, P, the work words and the colours.
fn wanted_words(words: &[u32]) -> usize {
    match words {
        [0, _, _, colours, ..] => 6 + 2 * (colours % 9) as usize,
        [0, ..] | [] => 6,
        _ => 1,
    }
}

// A case: what is wanted, and the sheet after it.
pub fn differs(words: &[u32]) -> bool {
    match words.split_at_checked(wanted_words(words)) {
        Some((wanted, sheet)) => !is_wanted(read_sheet(sheet), wanted),
        None => true,
    }
}
