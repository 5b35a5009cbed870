// The layout maker on small sheets from a fixed recipe, beside a plain search over all their layouts, written from the rules alone.
// After each call the result and every word of both areas are compared.
use maker::make_layout;
use plain_search::calls::Call;
use plain_search::met::KINDS;
use plain_search::small_sheet::recipe::Recipe;
use plain_search::small_sheet::words::sheet_words;

const SHEETS: u32 = 20000;

// Words enough for each call: the recipe's sheets need no more than 8192 for work and 6 for an answer, and up to two more are lent.
const WORK_WORDS: usize = 8194;

const ANSWER_WORDS: usize = 8;

fn is_call_right(call: &Call) -> bool {
    let words = sheet_words(&call.sheet);
    let mut work = [0u32; WORK_WORDS];
    let mut answer = [0u32; ANSWER_WORDS];
    let work = &mut work[..call.work.min(WORK_WORDS)];
    let answer = &mut answer[..call.answer.min(ANSWER_WORDS)];
    call.fill(work);
    call.fill(answer);
    let fault = make_layout(&words, work, answer);
    call.is_right(fault, work, answer)
}

// How often each kind is met.
pub fn count_sheets() -> [u32; KINDS.len()] {
    let mut counts = [0u32; KINDS.len()];
    let mut recipe = Recipe::new();
    for _ in 0..SHEETS {
        let call = Call::draw(&mut recipe);
        call.count(is_call_right(&call), &mut counts);
    }
    counts
}
