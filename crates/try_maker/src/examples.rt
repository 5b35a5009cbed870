// Each line of the input is a case: a name, a colon, how many work words and how many answer words are lent, and the sheet. A line that
// begins with # is a remark, one that begins with > has the name of a count.
use cases::{print_answer, take_case};
use maker::make_layout;
use std::io;

// So many words can be lent for work, and for the answer.
const MOST_WORK_WORDS: usize = 16384;

const MOST_ANSWER_WORDS: usize = 33;

// Both areas are dirty before the call. A case that does not say how many words are lent has its name alone.
fn lay_out_line(rt: &impl Print, line: &[u8]) -> io::Result<()> {
    let words = take_case(rt, line)?;
    let [work_words, answer_words, sheet @ ..] = words.as_slice() else {
        return Ok(());
    };
    let mut work = [u32::MAX; MOST_WORK_WORDS];
    let mut answer = [u32::MAX; MOST_ANSWER_WORDS];
    let work = &mut work[..*work_words as usize % (MOST_WORK_WORDS + 1)];
    let answer = &mut answer[..*answer_words as usize % (MOST_ANSWER_WORDS + 1)];
    let fault = make_layout(sheet, work, answer);
    print_answer(rt, fault, answer)
}

// A line that begins with a byte below A is no case.
pub fn lay_out_lines(rt: &impl Print, text: &[u8]) -> io::Result<()> {
    for line in text.split(|b| *b == b'\n') {
        if line.first().is_some_and(|b| b'A' <= *b) {
            lay_out_line(rt, line)?;
        }
    }
    Ok(())
}
