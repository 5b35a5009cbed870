// Small sheets, and a recipe that draws them. Nothing here is shared with the layout maker or the judge.
ghost use Rattle.std.specs.Prelude.{◌≡◌, ◌≤◌, length, take};

pub mod recipe;
pub mod words;

// A recipe draws no more slots, colours and sites.
pub const MOST_SLOTS: usize = 5;

pub const MOST_COLOURS: usize = 3;

pub const MOST_SITES: usize = 5;

#[derive(Clone, Copy, Default, Eq, PartialEq)]
pub struct Slot {
    pub number: u8,
    pub height: u8,
}

#[derive(Clone, Copy, Default)]
pub struct Colour {
    pub number: u8,
    // so many labels it may have, if there is a bound
    pub bound: Option<u8>,
}

#[derive(Clone, Copy, Default, Eq, PartialEq)]
pub struct Site {
    pub x: u8,
    pub y: u8,
    // the number of its colour
    pub colour: u8,
}

// A sheet's slots, as many as there is room for: an array and a count, since a sheet is Copy and no ArrayVec is.
#[derive(Clone, Copy)]
pub struct Slots {
    all: [Slot; MOST_SLOTS],
    count: usize,
}

impl Slots {
    pub fn of(slots: &[Slot]) -> Self
        ensures { take result.count result.all ≡ take MOST_SLOTS slots.now }
    {
        let count = slots.len().min(MOST_SLOTS);
        let mut all = [Slot::default(); MOST_SLOTS];
        all[..count].copy_from_slice(&slots[..count]);
        Slots { all, count }
    }

    fn as_slice(&self) -> &[Slot]
        ensures held { result.now ≡ take self.now.count self.now.all }
        ensures few { length result.now ≤ MOST_SLOTS }
    {
        self.all.get(..self.count).unwrap_or(&self.all)
    }
}

// A sheet's colours, in the same way. The types differ in what they hold alone, but a generic struct has no array of a type parameter.
#[derive(Clone, Copy)]
pub struct Colours {
    all: [Colour; MOST_COLOURS],
    count: usize,
}

impl Colours {
    pub fn of(colours: &[Colour]) -> Self
        ensures { take result.count result.all ≡ take MOST_COLOURS colours.now }
    {
        let count = colours.len().min(MOST_COLOURS);
        let mut all = [Colour::default(); MOST_COLOURS];
        all[..count].copy_from_slice(&colours[..count]);
        Colours { all, count }
    }

    fn as_slice(&self) -> &[Colour]
        ensures held { result.now ≡ take self.now.count self.now.all }
        ensures few { length result.now ≤ MOST_COLOURS }
    {
        self.all.get(..self.count).unwrap_or(&self.all)
    }
}

// A sheet's sites, in the same way.
#[derive(Clone, Copy)]
pub struct Sites {
    all: [Site; MOST_SITES],
    count: usize,
}

impl Sites {
    pub fn of(sites: &[Site]) -> Self
        ensures { take result.count result.all ≡ take MOST_SITES sites.now }
    {
        let count = sites.len().min(MOST_SITES);
        let mut all = [Site::default(); MOST_SITES];
        all[..count].copy_from_slice(&sites[..count]);
        Sites { all, count }
    }

    fn as_slice(&self) -> &[Site]
        ensures held { result.now ≡ take self.now.count self.now.all }
        ensures few { length result.now ≤ MOST_SITES }
    {
        self.all.get(..self.count).unwrap_or(&self.all)
    }
}

// What of a sheet a search can be asked to leave out.
#[derive(Clone, Copy)]
pub struct Terms {
    // of the charge word, if there is one
    pub charge: Option<u8>,
    // rule 5 counts a site left of a tip, a backbone's left end, by less than this: the gap. With 1 it counts none there, as in document 01
    pub clearance: u8,
}

#[derive(Clone, Copy)]
pub struct Sheet {
    pub two_sided: bool,
    // is the aim the shortest layout, rather than the one with the fewest labels?
    pub shortest: bool,
    pub gap: u8,
    pub width: u8,
    pub terms: Terms,
    pub slots: Slots,
    pub colours: Colours,
    pub sites: Sites,
}

impl Sheet {
    pub fn slots(&self) -> &[Slot]
        ensures held { result.now ≡ take self.now.slots.count self.now.slots.all }
        ensures few { length result.now ≤ MOST_SLOTS }
    {
        self.slots.as_slice()
    }

    pub fn colours(&self) -> &[Colour]
        ensures held { result.now ≡ take self.now.colours.count self.now.colours.all }
        ensures few { length result.now ≤ MOST_COLOURS }
    {
        self.colours.as_slice()
    }

    pub fn sites(&self) -> &[Site]
        ensures held { result.now ≡ take self.now.sites.count self.now.sites.all }
        ensures few { length result.now ≤ MOST_SITES }
    {
        self.sites.as_slice()
    }

    // The work words that the sheet needs.
    pub fn work_words(&self) -> usize {
        let slots = self.slots().len().saturating_add(2);
        let ends = slots.saturating_mul(self.colours().len().saturating_add(1));
        let bounds = self.colours().iter().filter_map(|colour| colour.bound);
        let words = bounds.fold(
            ends,
            |words, most| words.saturating_mul(usize::from(most) + 1),
        );
        if self.two_sided {
            return words;
        }
        ends.saturating_mul(self.sites().len().saturating_add(1))
            .saturating_mul(words)
    }

    // The words of an answer: its count and length, and a tie for each site.
    pub fn answer_words(&self) -> usize {
        self.sites().len().saturating_add(1)
    }
}
