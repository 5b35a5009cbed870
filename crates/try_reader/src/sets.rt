// Sheets with any set of faults, from lines that are taken for some sets: the lowest fault's number is given.
use crate::compare::{Tally, differs};
use cases::{Words, take_words};

// The sets of the faults 1 to 7 are the even numbers below this: bit k stands for fault k.
const SETS_END: u32 = 256;

// Is a line taken for a set? Its last word has the faults that it asks for, times 256, and those of them that the set must have.
fn is_taken(asked: u32, set: u32) -> bool {
    set & (asked >> 8) == asked % 256
}

// Takes a line's words, if it is taken for a set. The last one is not of the sheet.
fn take_line(line: &[u8], set: u32, taken: &mut Words) {
    let held = taken.len();
    take_words(line, taken);
    if taken.pop().is_none_or(|asked| !is_taken(asked, set)) {
        taken.truncate(held);
    }
}

// The words of the lines that are taken for a set.
fn taken_words(lines: &[u8], set: u32) -> Words {
    let mut taken = Words::new();
    for line in lines.split(|b| *b == b'\n') {
        if line.starts_with(b" ") {
            take_line(line, set, &mut taken);
        }
    }
    taken
}

// All sets of the faults 1 to 7.
pub fn read_sets(lines: &[u8]) -> Tally {
    let mut tally = Tally::default();
    for set in (0..SETS_END).step_by(2) {
        tally.count(differs(&taken_words(lines, set)));
    }
    tally
}
