// Small sheets from a fixed arithmetic recipe: numbers drawn from a seed, and from a second one what is not of the sheet's first form.
ghost use Rattle.std.specs.Prelude.{◌≤◌};

use crate::small_sheet::{
    Colour, Colours, MOST_COLOURS, MOST_SITES, MOST_SLOTS, Sheet, Site, Sites, Slot, Slots, Terms,
};
use arrayvec::ArrayVec;

// The most work words that a sheet here may need.
const MOST_WORK_WORDS: usize = 8192;

// A seed's upper half is below this.
const HALF_TOP: u32 = 65536;

#[derive(Drop)]
pub struct Recipe {
    // the last number drawn
    seed: u32,
    // the last one drawn from the second seed: it gives what the areas hold before a call, and what is added to sheets later, so that
    // whatever is added the sheets' other numbers stay
    second: u32,
    // the lowest slot's height stays where a sheet has no slot: its sites are drawn by it
    lowest: u8,
}

pub fn next(seed: u32) -> u32 {
    seed.wrapping_mul(1_664_525).wrapping_add(1_013_904_223)
}

// The number from 0 to `most` that a seed gives, of `most` what is below 2^16.
pub fn drawn(seed: u32, most: u32) -> u32
    ensures { result ≤ most }
{
    (seed >> 16) % (most % HALF_TOP + 1)
}

fn drawn_byte(seed: u32, most: u8) -> u8
    ensures { result ≤ most }
{
    drawn(seed, u32::from(most)) as u8
}

fn take_bounds(colours: &mut [Colour]) {
    for colour in colours {
        colour.bound = None;
    }
}

impl Recipe {
    pub fn new() -> Self {
        Recipe {
            seed: 1,
            second: 2,
            lowest: 0,
        }
    }

    // A number from 0 to `most`.
    fn draw(&mut self, most: u8) -> u8
        ensures { result ≤ most }
    {
        self.seed = next(self.seed);
        drawn_byte(self.seed, most)
    }

    // True one time in eight.
    fn is_one_in_eight(&mut self) -> bool {
        self.draw(7) == 7
    }

    // Above `few`, not above it one time in eight.
    fn size(&mut self, few: u8, more: u8) -> u8 {
        if self.draw(7) == 0 {
            return self.draw(few);
        }
        self.draw(more).saturating_add(few).saturating_add(1)
    }

    // Half of the sheets have a charge word, of 0 to 7: that comes from the second seed.
    fn charge(&mut self) -> Option<u8> {
        let first = next(self.second);
        self.second = next(first);
        (drawn_byte(first, 1) == 1).then_some(drawn_byte(self.second, 7))
    }

    // Slots one to five apart. There is room for each, as for each colour and each site.
    fn slots(&mut self, count: u8) -> ArrayVec<Slot, MOST_SLOTS> {
        let mut slots = ArrayVec::new();
        let mut height = self.draw(2);
        for number in 0..count {
            let _ = slots.try_push(Slot { number, height });
            height = height.saturating_add(self.draw(4)).saturating_add(1);
        }
        slots
    }

    // None, 1 or 2; one time in six 3, or 0 one time in eight of these.
    fn bound(&mut self) -> Option<u8> {
        match self.draw(5) {
            0 => None,
            1 | 2 => Some(1),
            3 | 4 => Some(2),
            _ if self.draw(7) == 0 => Some(0),
            _ => Some(3),
        }
    }

    fn colours(&mut self, count: u8) -> ArrayVec<Colour, MOST_COLOURS> {
        let mut colours = ArrayVec::new();
        for number in 0..count {
            let bound = self.bound();
            let _ = colours.try_push(Colour { number, bound });
        }
        colours
    }

    // The first column from the drawn one on that no site has, and then from the left.
    fn free_column(&mut self, width: u8, sites: &[Site]) -> u8 {
        let place = self.draw(width);
        let mut columns = (place..=width).chain(0..=width);
        columns
            .find(|x| sites.iter().all(|site| site.x != *x))
            .unwrap_or(place)
    }

    // Sites in free columns, not above a row. Each has the colour of the one before it or the next, as far as there is one.
    fn sites(&mut self, count: u8, width: u8, top: u8, last: u8) -> ArrayVec<Site, MOST_SITES> {
        let mut sites = ArrayVec::new();
        let mut colour = u8::from(self.is_one_in_eight());
        for _ in 0..count {
            colour = colour.min(last);
            let x = self.free_column(width, &sites);
            let y = self.draw(top);
            let _ = sites.try_push(Site { x, y, colour });
            colour = colour.saturating_add(self.draw(1));
        }
        sites
    }

    // The next sheet: two-sided one time in eight; four or five slots, two colours more often than one or three, three to five sites;
    // without bounds where they ask for too much work.
    pub fn sheet(&mut self) -> Sheet {
        let two_sided = self.is_one_in_eight();
        let shortest = self.draw(1) == 1;
        let first = self.draw(2);
        let gap = first.min(self.draw(2)) + 1;
        let width = self.draw(3) + 5;
        let slot_count = self.size(3, 1);
        let last_colour = self.draw(3).div_ceil(2);
        let site_count = self.size(2, 2);
        let charge = self.charge();
        let slots = self.slots(slot_count);
        self.lowest = slots.first().map_or(self.lowest, |slot| slot.height);
        let top = slots
            .last()
            .map_or(self.lowest, |slot| slot.height)
            .saturating_add(2);
        let colours = self.colours(last_colour + 1);
        let sites = self.sites(site_count, width, top, last_colour);
        let mut sheet = Sheet {
            two_sided,
            shortest,
            gap,
            width,
            terms: Terms {
                charge,
                clearance: gap,
            },
            slots: Slots::of(&slots),
            colours: Colours::of(&colours),
            sites: Sites::of(&sites),
        };
        if MOST_WORK_WORDS < sheet.work_words() {
            take_bounds(&mut sheet.colours.all);
        }
        sheet
    }

    // How many words a call is lent: one too few one time in 32, else up to two too many.
    pub fn lent(&mut self, needed: usize) -> usize {
        if self.draw(31) == 0 {
            return needed.saturating_sub(1);
        }
        needed.saturating_add(usize::from(self.draw(2)))
    }

    // One number is left out before the next sheet.
    pub fn skip(&mut self) {
        self.seed = next(self.seed);
    }

    // What the areas' words come from.
    pub fn areas_seed(&self) -> u32 {
        self.second
    }
}
