// The kinds of words: document 01, "The sheet"; a charge is document 02's.
ghost use Rattle.std.specs.Prelude.{◌≡◌, eqb};
ghost use Rattle.sheet.specs.Sheet.{kind_of};
ghost use Rattle.words.specs.Kinds.{kind_number};

use crate::KIND_TOP;

// A kind, by the number in the bits 31 to 28 of its words.
#[derive(Clone, Copy, PartialEq, Eq)]
pub enum Kind {
    Head = 1,
    Slot = 2,
    Colour = 3,
    Site = 4,
    Charge = 5,
    Layout = 8,
    Tie = 9,
}

// Whether a word is of a kind.
pub fn is_kind(w: u32, kind: Kind) -> bool
    ensures { result ≡ eqb (kind_of w) (kind_number kind) }
{
    w / KIND_TOP == kind as u32
}
