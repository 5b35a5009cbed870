// What a call of the layout maker should answer and leave, by the search. Some calls are lent too little.
use crate::search::{Found, search};
use crate::small_sheet::recipe::Recipe;
use crate::small_sheet::words::WordKind;
use crate::small_sheet::{MOST_SITES, Sheet};
use arrayvec::ArrayVec;

// In the first word of a layout the count of labels stands above 21 bits.
const LABELS_BIT: u32 = 21;

// So many words has an answer at most.
const MOST_ANSWER_WORDS: usize = 1 + MOST_SITES;

// The low half of a word is below this.
const HALF_TOP: usize = 65536;

#[derive(Clone, Copy, Eq, PartialEq)]
pub enum Refusal {
    Work = 8,
    Answer = 9,
    NoLayout = 10,
    TwoSided = 18,
}

// A call with a sheet: so many words are lent for work and for the answer, and what it should give.
#[derive(Clone, Copy)]
pub struct Call {
    pub sheet: Sheet,
    pub work: usize,
    pub answer: usize,
    // the areas' words before the call come from it
    areas: u32,
    pub(crate) outcome: Result<Found, Refusal>,
}

// What an area holds before a call: its place times 7 and the seed's upper half give the low half.
fn old_word(place: usize, seed: u32) -> u32 {
    let place = (place % HALF_TOP) as u16;
    let half = (seed >> 16) as u16;
    WordKind::Layout.word() | u32::from(place.wrapping_mul(7).wrapping_add(half))
}

// Does an area hold what it held before a call, from a place on?
fn is_old(area: &[u32], from: usize, seed: u32) -> bool {
    let mut words = area.iter().enumerate().skip(from);
    words.all(|(place, word)| *word == old_word(place, seed))
}

// A two-sided sheet is refused whatever is lent.
fn outcome_of(sheet: &Sheet, work: usize, answer: usize) -> Result<Found, Refusal> {
    if sheet.two_sided {
        return Err(Refusal::TwoSided);
    }
    if work < sheet.work_words() {
        return Err(Refusal::Work);
    }
    if answer < sheet.answer_words() {
        return Err(Refusal::Answer);
    }
    search(sheet, sheet.terms).ok_or(Refusal::NoLayout)
}

impl Call {
    // The next call of a recipe.
    pub fn draw(recipe: &mut Recipe) -> Call {
        let sheet = recipe.sheet();
        let work = recipe.lent(sheet.work_words());
        let answer = recipe.lent(sheet.answer_words());
        recipe.skip();
        let outcome = outcome_of(&sheet, work, answer);
        Call {
            sheet,
            work,
            answer,
            areas: recipe.areas_seed(),
            outcome,
        }
    }

    // Puts into an area what it holds before the call.
    pub fn fill(&self, area: &mut [u32]) {
        for (place, word) in area.iter_mut().enumerate() {
            *word = old_word(place, self.areas);
        }
    }

    // The number that the call gives.
    fn fault(&self) -> u8 {
        match self.outcome {
            Ok(_) => 0,
            Err(refusal) => refusal as u8,
        }
    }

    // The needed work words are zero after an answer, and where there is no layout.
    fn is_work_left(&self, work: &[u32]) -> bool {
        let written = match self.outcome {
            Ok(_) | Err(Refusal::NoLayout) => self.sheet.work_words(),
            Err(_) => 0,
        };
        work.iter().take(written).all(|word| *word == 0) && is_old(work, written, self.areas)
    }

    // An answer stands in front: count and length, then a word for each site.
    fn answer_written(&self) -> ArrayVec<u32, MOST_ANSWER_WORDS> {
        let mut words = ArrayVec::new();
        if let Ok(found) = &self.outcome {
            let size = found.size;
            let _ = words.try_push(
                WordKind::Layout.word() | size.labels << LABELS_BIT | size.length,
            );
            for site in self.sheet.sites() {
                let tie = found.ties().iter().find(|tie| tie.site == *site);
                let _ = words.extend(tie.map(|tie| WordKind::Tie.word()
                    | u32::from(tie.slot.number)));
            }
        }
        words
    }

    fn is_answer_left(&self, answer: &[u32]) -> bool {
        let written = self.answer_written();
        answer
            .iter()
            .zip(&written)
            .all(|(word, other)| word == other)
            && is_old(answer, written.len(), self.areas)
    }

    // Are a call's answer and both areas after it as they should be?
    pub fn is_right(&self, fault: u8, work: &[u32], answer: &[u32]) -> bool {
        fault == self.fault() && self.is_work_left(work) && self.is_answer_left(answer)
    }
}
