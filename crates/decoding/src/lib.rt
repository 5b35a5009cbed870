// The numbers of an accepted sheet in arrays: all that works on a sheet after its refusals works on these. Its functions are internal
// to those that have refused first: each asks for an accepted sheet, or for an array that is long enough.
#![tactic(auto)]

ghost use Rattle.std.specs.Prelude.{◌≡◌, ◌≤◌, ◌++◌, length, drop, map};
ghost use Rattle.sheet.specs.Limits.{most_slots, most_colours, most_sites};
ghost use Rattle.sheet.specs.Sheet.{slots_in, colours_in, sites_in, sheet_in, sheet_fault};
ghost use Rattle.sheet.specs.Words.{count_kind};
ghost use Rattle.decoding.specs.Decoding.{numbers_by, no_numbers, head_by, bounds_in, xs_in, ys_in, site_colours_in, colour_numbers, site_numbers};

use words::body::{body_of, sites_run};
use words::charge::charge_of;
use words::kinds::{Kind, is_kind};
use words::tied::Head;
use words::{
    MOST_COLOURS, MOST_SITES, MOST_SLOTS, aim_bit, byte_field, gap_field, get, high_field,
    low_field, side_bit,
};

// Side, aim, gap, width and charge: after the refusals the head is taken apart nowhere else.
fn head_of(sheet: &[u32]) -> Head
    ensures { result ≡ head_by (sheet_in sheet.now) }
{
    let w = get(sheet, 0);
    Head {
        twosided: side_bit(w) == 1,
        shortest: aim_bit(w) == 1,
        gap: gap_field(w),
        width: low_field(w),
        charge: charge_of(sheet),
    }
}

// The slots' heights, put into an array from its first place on; how many they are.
fn take_heights(body: &[u32], heights: &mut [u32]) -> usize
    requires { count_kind 2 body.now ≤ length heights.old }
    ensures count { result ≡ length (slots_in body.now) }
    ensures filled { heights.new ≡ slots_in body.now ++ drop (length (slots_in body.now)) heights.old }
{
    let mut slots = 0;
    for w in body {
        if is_kind(*w, Kind::Slot) {
            heights[slots] = low_field(*w);
            slots += 1;
        }
    }
    slots
}

// ---- colours and sites

// A colour: its label bound (255 unbounded) and its count of sites.
#[derive(Clone, Copy)]
pub struct Colour {
    pub bound: u32,
    pub sites: u32,
}

// A site: x from the left edge, y downwards from the top, the number of its colour.
#[derive(Clone, Copy)]
pub struct Site {
    pub x: u32,
    pub y: u32,
    pub colour: u32,
}

// What stands past the last colour, and past the last site.
const NO_COLOUR: Colour = Colour { bound: 0, sites: 0 };

const NO_SITE: Site = Site {
    x: 0,
    y: 0,
    colour: 0,
};

// The colours, in the same way.
fn take_colours(body: &[u32], colours: &mut [Colour]) -> usize
    requires fit { count_kind 3 body.now ≤ length colours.old }
    requires few_sites { count_kind 4 body.now ≤ most_sites }
    ensures count { result ≡ length (colours_in body.now) }
    ensures filled { colours.new ≡ map colour_numbers (colours_in body.now) ++ drop (length (colours_in body.now)) colours.old }
{
    let mut kinds = 0;
    for (place, w) in body.iter().enumerate() {
        if is_kind(*w, Kind::Colour) {
            colours[kinds] = Colour {
                bound: byte_field(*w),
                sites: sites_run(body, place + 1) as u32,
            };
            kinds += 1;
        }
    }
    kinds
}

// The sites, in the same way. A site's colour is the last before it.
fn take_sites(body: &[u32], list: &mut [Site]) -> usize
    requires fit { count_kind 4 body.now ≤ length list.old }
    requires few_colours { count_kind 3 body.now ≤ most_colours }
    ensures count { result ≡ length (sites_in 0 body.now) }
    ensures filled { list.new ≡ map site_numbers (sites_in 0 body.now) ++ drop (length (sites_in 0 body.now)) list.old }
{
    let mut colours: u32 = 0;
    let mut sites = 0;
    for w in body {
        if is_kind(*w, Kind::Colour) {
            colours += 1;
        } else if is_kind(*w, Kind::Site) {
            list[sites] = Site {
                x: high_field(*w),
                y: low_field(*w),
                colour: colours.saturating_sub(1),
            };
            sites += 1;
        }
    }
    sites
}

// ---- all of them

// An accepted sheet's numbers, by value: what its head and its charge say, how many slots (m), colours (C) and sites (n) it has, and lists of
// these. The counts stand beside arrays of a fixed size, since the engine has no heap: past its count each array has zeros.
#[derive(Clone, Copy)]
pub struct Numbers {
    pub head: Head,
    pub slots: usize,
    pub kinds: usize,
    pub sites: usize,
    pub heights: [u32; MOST_SLOTS],
    pub colour_list: [Colour; MOST_COLOURS],
    pub site_list: [Site; MOST_SITES],
}

// One number of each colour or site in an array of its own, for what reads that number alone: sizes, and the table's inner loops.
// Loops over the places: `map` of an array is made into tagged options, one by one.
impl Numbers {
    pub fn bounds(&self) -> [u32; MOST_COLOURS]
        ensures { result ≡ bounds_in self.now.colour_list }
    {
        let mut bounds = [0; MOST_COLOURS];
        for i in 0..MOST_COLOURS {
            bounds[i] = self.colour_list[i].bound;
        }
        bounds
    }

    pub fn xs(&self) -> [u32; MOST_SITES]
        ensures { result ≡ xs_in self.now.site_list }
    {
        let mut xs = [0; MOST_SITES];
        for i in 0..MOST_SITES {
            xs[i] = self.site_list[i].x;
        }
        xs
    }

    pub fn ys(&self) -> [u32; MOST_SITES]
        ensures { result ≡ ys_in self.now.site_list }
    {
        let mut ys = [0; MOST_SITES];
        for i in 0..MOST_SITES {
            ys[i] = self.site_list[i].y;
        }
        ys
    }

    pub fn site_colours(&self) -> [u32; MOST_SITES]
        ensures { result ≡ site_colours_in self.now.site_list }
    {
        let mut colours = [0; MOST_SITES];
        for i in 0..MOST_SITES {
            colours[i] = self.site_list[i].colour;
        }
        colours
    }
}

// What stands for the numbers of a sheet that is refused: zeros.
pub fn no_numbers() -> Numbers
    ensures { result ≡ no_numbers }
{
    Numbers {
        head: Head {
            twosided: false,
            shortest: false,
            gap: 0,
            width: 0,
            charge: 0,
        },
        slots: 0,
        kinds: 0,
        sites: 0,
        heights: [0; MOST_SLOTS],
        colour_list: [NO_COLOUR; MOST_COLOURS],
        site_list: [NO_SITE; MOST_SITES],
    }
}

pub fn numbers_of(sheet: &[u32]) -> Numbers
    requires { sheet_fault sheet.now ≡ 0 }
    ensures { result ≡ numbers_by (sheet_in sheet.now) }
{
    let body = body_of(sheet);
    let mut heights = [0; MOST_SLOTS];
    let slots = take_heights(body, &mut heights);
    let mut colour_list = [NO_COLOUR; MOST_COLOURS];
    let kinds = take_colours(body, &mut colour_list);
    let mut site_list = [NO_SITE; MOST_SITES];
    let sites = take_sites(body, &mut site_list);
    Numbers {
        head: head_of(sheet),
        slots,
        kinds,
        sites,
        heights,
        colour_list,
        site_list,
    }
}
