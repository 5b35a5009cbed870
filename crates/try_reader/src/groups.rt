// Groups of cases as text: > and a mark, the group's name, then a line for each case; after the mark * the lines are of sets of faults.
use crate::compare::{Tally, differs};
use crate::sets::read_sets;
use cases::{Words, take_words};
use std::io;

// A line that does not begin with a blank is a remark.
fn read_cases(lines: &[u8]) -> Tally {
    let mut tally = Tally::default();
    for line in lines.split(|b| *b == b'\n') {
        if line.starts_with(b" ") {
            let mut words = Words::new();
            take_words(line, &mut words);
            tally.count(differs(&words));
        }
    }
    tally
}

// A group with no mark and no name has no line.
fn read_group(rt: &impl Print, group: &[u8]) -> io::Result<Tally> {
    let end = group.iter().position(|b| *b == b'\n');
    let (title, lines) = group.split_at(end.unwrap_or(group.len()));
    let Some((mark, name)) = title.split_first() else {
        return Ok(Tally::default());
    };
    let tally = match mark {
        b'*' => read_sets(lines),
        _ => read_cases(lines),
    };
    rt.write_all(name)?;
    println!(rt; ": {tally}")?;
    Ok(tally)
}

pub fn read_groups(rt: &impl Print, text: &[u8]) -> io::Result<Tally> {
    let mut all = Tally::default();
    for group in text.split(|b| *b == b'>').skip(1) {
        all += read_group(rt, group)?;
    }
    Ok(all)
}
