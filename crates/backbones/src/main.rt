// The program's text, from the bytes of its input; and its run, which reads, calls and writes.
#![tactic(auto)]

ghost use Rattle.std.specs.Prelude.{◌≡◌, ◌++◌, ◌≤◌, length, drop};
ghost use Rattle.sheet.specs.Sheet.{sheet_in, sheet_fault};
ghost use Rattle.text.specs.Puts.{Puts};
ghost use Rattle.report.specs.Lines.{layout_text};
ghost use Rattle.report.specs.Report.{program_sheet_text, program_text, text_bound};

use decoding::numbers_of;
use faults::refusal::Refusal;
use maker::make_layout;
use refusals::refusal_12::{MOST_BYTES, WORD_BYTES, is_unfit};
use report::input::put_words;
use report::lines::{put_layout, put_refused};
use std::io;
use stream::read_full;
use text::Text;
use words::MOST_SITES;

// The program's areas, of fixed sizes since it has no heap: an input's bytes and one more, which tells that it is too long; its words; work
// and answer.
const INPUT_BYTES: usize = MOST_BYTES + 1;

const INPUT_WORDS: usize = MOST_BYTES / WORD_BYTES;

const WORK_WORDS: usize = 16384;

const ANSWER_WORDS: usize = MOST_SITES + 1;

// A bound on the text's length: a first line of at most 36 bytes, and a line of at most 50 for each site.
const TEXT_BOUND: usize = 36 + MOST_SITES * 50;

// The layout in an answer, of a sheet that is accepted.
fn put_answer(text: &mut Text, sheet: &[u32], answer: &[u32])
    requires { sheet_fault sheet.now ≡ 0 }
    ensures { Puts text.old text.new (layout_text (sheet_in sheet.now) answer.now) }
{
    let numbers = numbers_of(sheet);
    let sites = numbers.sites;
    let colours = numbers.site_colours();
    put_layout(text, answer, &colours[..sites]);
}

// What the layout maker says of a sheet, with the program's areas for its work and its answer.
fn put_program_sheet(text: &mut Text, sheet: &[u32])
    ensures { Puts text.old text.new (program_sheet_text sheet.now) }
{
    let mut work = [0u32; WORK_WORDS];
    let mut answer = [0u32; ANSWER_WORDS];
    match make_layout(sheet, &mut work, &mut answer) {
        0 => put_answer(text, sheet, &answer),
        number => put_refused(text, u64::from(number)),
    }
}

fn put_program(text: &mut Text, input: &[u8])
    ensures { Puts text.old text.new (program_text input.now) }
{
    if is_unfit(input.len()) {
        return put_refused(text, u64::from(Refusal::NotWords.number()));
    }
    let mut words = [0u32; INPUT_WORDS];
    let n = put_words(&mut words, input);
    put_program_sheet(text, &words[..n]);
}

// Puts the program's text for an input at the start of an area that holds every text, and answers its number of bytes.
fn report(input: &[u8], area: &mut [u8]) -> usize
    requires { text_bound ≤ length area.old }
    ensures value { result ≡ length (program_text input.now) }
    ensures area_after { area.new ≡ program_text input.now ++ drop (length (program_text input.now)) area.old }
{
    let mut text = Text::new(area);
    put_program(&mut text, input);
    text.past()
}

// Reads an input and writes the text for it.
fn main(rt: HostRuntime) -> io::Result<()> {
    let mut input = [0u8; INPUT_BYTES];
    let mut text = [0u8; TEXT_BOUND];
    let got = read_full(&mut rt.stdin(), &mut input)?;
    let size = report(&input[..got], &mut text);
    rt.write_all(&text[..size])
}
