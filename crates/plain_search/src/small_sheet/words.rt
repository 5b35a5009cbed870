// A small sheet as words.
use crate::small_sheet::{Colour, MOST_COLOURS, MOST_SITES, MOST_SLOTS, Sheet};
use arrayvec::ArrayVec;

// No small sheet has more words: a head, a charge, and its slots, colours and sites.
pub const MOST_WORDS: usize = 2 + MOST_SLOTS + MOST_COLOURS + MOST_SITES;

pub type Words = ArrayVec<u32, MOST_WORDS>;

// The kinds of words, each with its number.
#[derive(Clone, Copy)]
pub enum WordKind {
    Head = 1,
    Slot = 2,
    Colour = 3,
    Site = 4,
    Charge = 5,
    Layout = 8,
    Tie = 9,
}

impl WordKind {
    // A word of this kind, its other bits zero: the kind stands above 28 bits.
    pub fn word(self) -> u32 {
        (self as u32) << 28
    }
}

// The side stands above 27 bits, the aim above 26, gap and x above 14.
const SIDE_BIT: u32 = 27;

const AIM_BIT: u32 = 26;

const FIELD_BIT: u32 = 14;

// The bound in the word of a colour that has none.
const NO_BOUND: u8 = 255;

fn head_word(sheet: &Sheet) -> u32 {
    let side = u32::from(sheet.two_sided) << SIDE_BIT;
    let aim = u32::from(sheet.shortest) << AIM_BIT;
    WordKind::Head.word() | side | aim | u32::from(sheet.gap) << FIELD_BIT | u32::from(sheet.width)
}

// A colour's word, and those of its sites after it.
fn push_colour(words: &mut Words, sheet: &Sheet, colour: Colour) {
    let _ = words.try_push(WordKind::Colour.word() | u32::from(colour.bound.unwrap_or(NO_BOUND)));
    for site in sheet
        .sites()
        .iter()
        .filter(|site| site.colour == colour.number)
    {
        let _ = words.try_push(
            WordKind::Site.word() | u32::from(site.x) << FIELD_BIT | u32::from(site.y),
        );
    }
}

// There is room for each word.
pub fn sheet_words(sheet: &Sheet) -> Words {
    let mut words = Words::new();
    let _ = words.try_push(head_word(sheet));
    let _ = words.extend(
        sheet
            .terms
            .charge
            .map(|charge| WordKind::Charge.word() | u32::from(charge)),
    );
    let _ = words.extend(
        sheet
            .slots()
            .iter()
            .map(|slot| WordKind::Slot.word() | u32::from(slot.height)),
    );
    for colour in sheet.colours() {
        push_colour(&mut words, sheet, *colour);
    }
    words
}
