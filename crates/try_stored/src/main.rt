// The judge, the strokes and the page on stored sheets made by hand. Each line of the input is a case: a name, a colon, and words in
// hexadecimal, a blank before each; a line that begins with # is a remark. What must be given is in the file stdout, worked out from documents
// 01 and 02: the verdict, then each stroke, by its ends in units, up to the place that is refused, then the page, if there is one.
#![tactic(auto)]

use cases::{TEXT_BYTES, print_number, take_case};
use judge::{Verdict, judge_layout};
use page::write_page;
use points::in_points;
use points::stroke::{End, Stroke};
use std::io;
use stream::read_full;
use strokes::stroke_at;

// More places than a stored sheet has strokes: at most a backbone and a drop for each of 32 sites.
const PLACES: usize = 65;

// The bytes of the longest page: 41 for each of 32 labels and 32 sites, and for the last line.
const PAGE_BYTES: usize = 2665;

// Above the greatest x, y, height or width.
const NUMBER_TOP: u32 = 16384;

fn print_verdict(rt: &impl Print, verdict: Verdict) -> io::Result<()> {
    let Verdict { refusal, rule } = verdict;
    if refusal != 0 {
        return print_number(rt, b": refused ", u32::from(refusal));
    }
    print_number(rt, b": rule ", u32::from(rule))
}

// The whole number whose eighth this is.
fn units_of(x: f32) -> u32 {
    (0..NUMBER_TOP)
        .find(|n| in_points(*n) == x)
        .unwrap_or(NUMBER_TOP)
}

// The name, each number but the last, and what stands before that are each a write of their own.
fn print_ends(rt: &impl Print, name: &[u8], first: End, second: End) -> io::Result<()> {
    rt.write_all(name)?;
    for x in [first.x, first.y, second.x] {
        print!(rt; " {}", units_of(x))?;
    }
    print_number(rt, b" ", units_of(second.y))
}

fn print_stroke(rt: &impl Print, stroke: Stroke) -> io::Result<()> {
    match stroke {
        Stroke::Bone(first, second) => print_ends(rt, b"  bone", first, second),
        Stroke::Drop(first, second) => print_ends(rt, b"  drop", first, second),
    }
}

// Each stroke, up to the place that is refused.
fn print_strokes(rt: &impl Print, stored: &[u32]) -> io::Result<()> {
    for place in 0..PLACES {
        match stroke_at(stored, place) {
            Ok(stroke) => print_stroke(rt, stroke)?,
            Err(refusal) => return print_number(rt, b"  refused ", u32::from(refusal.number())),
        }
    }
    Ok(())
}

// A refusal prints nothing.
fn print_page(rt: &impl Print, stored: &[u32]) -> io::Result<()> {
    let mut page = [0u8; PAGE_BYTES];
    let size = write_page(stored, &mut page).written as usize;
    rt.write_all(page.get(..size).unwrap_or_default())
}

fn try_line(rt: &impl Print, line: &[u8]) -> io::Result<()> {
    let stored = take_case(rt, line)?;
    print_verdict(rt, judge_layout(&stored))?;
    print_strokes(rt, &stored)?;
    print_page(rt, &stored)
}

// An empty line is a case with no name and no words.
fn try_lines(rt: &impl Print, text: &[u8]) -> io::Result<()> {
    for line in text.split_inclusive(|b| *b == b'\n') {
        if !line.starts_with(b"#") {
            try_line(rt, line.strip_suffix(b"\n").unwrap_or(line))?;
        }
    }
    Ok(())
}

fn main(rt: HostRuntime) -> io::Result<()> {
    let mut text = [0u8; TEXT_BYTES];
    let got = read_full(&mut rt.stdin(), &mut text)?;
    try_lines(&rt, &text[..got])
}
