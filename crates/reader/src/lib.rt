// The reader: the refusal of any list of words, or the sizes of the sheet in it.
#![tactic(auto)]

pub mod opened;
pub mod order;
mod refusal_1;
mod refusal_2;
mod refusal_4;
mod refusal_5;
mod refusal_6;
mod refusal_7;

ghost use Rattle.std.specs.Prelude.{◌≡◌, ℕ, ◌<◌, ◌≤◌, length, get_or};
ghost use Rattle.sheet.specs.Limits.{most_colours, byte_top};
ghost use Rattle.decoding.specs.Decoding.{bounds_in, site_counts_in, colours_by, sheet_by, SheetRead};
ghost use Rattle.reader.specs.Read.{eight_of, read_of, refused_of, read_post};

use crate::opened::open_sheet;
use decoding::{Colour, Numbers};
use sizes::{product_of, work_for};
use words::MOST_COLOURS;

#[repr(C)]
#[derive(Clone, Copy)]
pub struct ColourSize {
    pub bound: u8,
    pub sites: u8,
}

// A C struct: its refusal is a number, 0 for none, and its eight colours are an array.
#[repr(C)]
#[derive(Drop)]
pub struct Sizes {
    pub refusal: u8,
    pub n: u8,
    pub m: u8,
    pub c: u8,
    pub p: u8,
    pub work: u32,
    pub colours: [ColourSize; MOST_COLOURS],
}

// What stands for a colour that the sheet does not have.
const ABSENT: ColourSize = ColourSize { bound: 0, sites: 0 };

fn colour_sizes(colours: &[Colour]) -> [ColourSize; MOST_COLOURS]
    requires few { length colours.now ≤ most_colours }
    requires bounds_low { (i : ℕ) → get_or (bounds_in colours.now) i 0 < byte_top }
    requires counts_low { (i : ℕ) → get_or (site_counts_in colours.now) i 0 < byte_top }
    ensures { result ≡ eight_of (colours_by colours.now) }
{
    let mut sizes = [ABSENT; MOST_COLOURS];
    for (c, colour) in colours.iter().enumerate() {
        sizes[c] = ColourSize {
            bound: colour.bound as u8,
            sites: colour.sites as u8,
        };
    }
    sizes
}

fn refused(refusal: u8) -> Sizes
    ensures { result ≡ refused_of refusal }
{
    Sizes {
        refusal,
        n: 0,
        m: 0,
        c: 0,
        p: 0,
        work: 0,
        colours: [ABSENT; MOST_COLOURS],
    }
}

// The reader's answer for a sheet that was opened: internal to reader and maker, which open it first.
pub fn sizes_of(numbers: &Numbers) -> Sizes
    requires { SheetRead numbers.now }
    ensures { result ≡ read_of (sheet_by numbers.now) }
{
    let bounds = numbers.bounds();
    let p = product_of(&bounds[..numbers.kinds]);
    let work = work_for(
        numbers.head.twosided,
        numbers.slots as u32,
        numbers.kinds as u32,
        numbers.sites as u32,
        p,
    );
    Sizes {
        refusal: 0,
        n: numbers.sites as u8,
        m: numbers.slots as u8,
        c: numbers.kinds as u8,
        p: p as u8,
        work,
        colours: colour_sizes(&numbers.colour_list[..numbers.kinds]),
    }
}

// The refusal's number, or n, m, C, P, the number of work words and the eight colours.
pub fn read_sheet(sheet: &[u32]) -> Sizes
    ensures { result ≡ read_post sheet.now }
{
    match open_sheet(sheet) {
        Ok(numbers) => sizes_of(&numbers),
        Err(refusal) => refused(refusal.number()),
    }
}
