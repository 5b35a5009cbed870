// Cases of a test as lines of text: a name, a colon, and words in hexadecimal, a blank before each; and a line for what is given.
// A text is bytes, of any kind: each byte of a word counts as a digit.
#![tactic(auto)]

ghost use Rattle.std.specs.Prelude.{◌≤◌, length, IfOk};
ghost use Rattle.arrayvec.specs.ArrayVec.{array_vec_len};

use arrayvec::ArrayVec;
use std::io;

// Bytes enough for the input of a test.
pub const TEXT_BYTES: usize = 65536;

// Words enough for each case of a test.
pub const CASE_WORDS: usize = 128;

pub type Words = ArrayVec<u32, CASE_WORDS>;

// A word has eight hexadecimal digits of so many bits; one more moves the first out.
const DIGIT_BITS: u32 = 4;

// The value of a hexadecimal digit: a letter has bit 6, and the low bits 1 for A.
fn digit(b: u8) -> u32
    ensures { result ≤ 15 }
{
    u32::from((b % 16 + b / 64 * 9) % 16)
}

// Takes a byte: a blank begins a word, if there is room for one; another byte goes on with the last one, if there is one.
fn take_byte<const N: usize>(b: u8, words: &mut ArrayVec<u32, N>)
    ensures { (array_vec_len words.old ≤ array_vec_len words.new) × (array_vec_len words.new ≤ N) }
{
    if b == b' ' {
        let _ = words.try_push(0);
    } else if let Some(last) = words.last_mut() {
        *last = *last << DIGIT_BITS | digit(b);
    }
}

// Takes the words after the first blank, as many as there is room for: what comes after them goes on with the last one, and what
// comes before them with the last one that was held.
pub fn take_words<const N: usize>(text: &[u8], words: &mut ArrayVec<u32, N>)
    ensures { (array_vec_len words.old ≤ array_vec_len words.new) × (array_vec_len words.new ≤ N) }
{
    prove!(words.len() <= N);
    for b in text {
        take_byte(*b, words);
    }
}

// The first place of a byte from a place on, or the end.
pub fn place_of(text: &[u8], from: usize, b: u8) -> usize
    requires { from ≤ length text.now }
    ensures { (from ≤ result) × (result ≤ length text.now) }
{
    match text[from..].iter().position(|other| *other == b) {
        Some(place) => from + place,
        None => text.len(),
    }
}

// Writes a line's name, and gives its words.
pub fn take_case(rt: &impl Print, line: &[u8]) -> io::Result<Words>
    ensures { IfOk result (λ words. array_vec_len words ≤ 128) }
{
    let (name, rest) = line.split_at(place_of(line, 0, b':'));
    rt.write_all(name)?;
    let mut words = Words::new();
    take_words(rest, &mut words);
    Ok(words)
}

// Ends a line with a number. What stands before it is a write of its own, so that it stands there too where the output ends early.
pub fn print_number(rt: &impl Print, before: &[u8], number: u32) -> io::Result<()> {
    rt.write_all(before)?;
    println!(rt; "{number}")
}

// Ends a line with what the layout maker gives.
pub fn print_answer(rt: &impl Print, fault: u8, answer: &[u32]) -> io::Result<()> {
    if fault != 0 {
        return print_number(rt, b": refused ", u32::from(fault));
    }
    print!(rt; ":")?;
    for word in answer {
        print!(rt; " {word:08x}")?;
    }
    println!(rt)
}

// Each count with its name: a line of a text, after the byte >. After the last count comes the first again.
pub fn print_counts(rt: &impl Print, text: &[u8], counts: &[u32]) -> io::Result<()> {
    let names = text.split(|b| *b == b'>').skip(1);
    for (name, count) in names.zip(counts.iter().cycle()) {
        print!(rt; "{count}")?;
        rt.write_all(name)?;
    }
    Ok(())
}
