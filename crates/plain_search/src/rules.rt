// The rules of a lawful layout, each as its sentence says.
ghost use Rattle.std.specs.Prelude.{◌≤◌, nat_abs};

use crate::small_sheet::{Colour, Sheet, Site, Slot, Terms};

// A site and the slot that it is tied to.
#[derive(Clone, Copy, Default, Eq, PartialEq)]
pub struct Tie {
    pub site: Site,
    pub slot: Slot,
}

// The number of labels and the length of a layout.
#[derive(Clone, Copy, Default)]
pub struct Size {
    pub labels: u32,
    pub length: u32,
}

impl Size {
    // In the order of the aim: the number of labels first, or the length.
    pub fn rank(self, shortest: bool) -> (u32, u32) {
        if shortest {
            (self.length, self.labels)
        } else {
            (self.labels, self.length)
        }
    }
}

// A layout of a sheet: a tie for each site. The charge and the clearance are not always the sheet's own.
#[derive(Clone, Copy)]
pub struct Layout<'a> {
    pub sheet: &'a Sheet,
    pub terms: Terms,
    pub ties: &'a [Tie],
}

impl Layout<'_> {
    // The left end of a slot's backbone: two-sided 0, else the least x among the slot's sites. A slot that no site has is not used.
    fn left_end(&self, slot: Slot) -> Option<u8> {
        let own = self.ties.iter().filter(|tie| tie.slot == slot);
        let end = own.map(|tie| tie.site.x).min()?;
        Some(if self.sheet.two_sided { 0 } else { end })
    }

    // A colour's labels: the slots that its sites have.
    pub fn labels(&self, colour: Colour) -> usize {
        let is_label = |slot: &&Slot| {
            self.ties.iter().any(|tie| tie.slot == **slot && tie.site.colour == colour.number)
        };
        self.sheet.slots().iter().filter(is_label).count()
    }

    // Rule 1: no slot has sites of two colours.
    fn keeps_colours_apart(&self) -> bool {
        self.ties.iter().all(|tie| {
            self.ties.iter().all(|other| tie.slot != other.slot
                || tie.site.colour == other.site.colour)
        })
    }

    // Rule 2: no colour has more labels than its bound.
    fn keeps_bounds(&self) -> bool {
        self.sheet.colours().iter().all(|colour| {
            colour
                .bound
                .is_none_or(|most| self.labels(*colour) <= usize::from(most))
        })
    }

    // Rules 3 to 5 for a tie and a slot: its own, one that is not used, or another label's. A backbone reaches from its left end to the
    // width, and no site lies right of that; it crosses the site's vertical if it lies between the site and its label. Rule 5 counts a site
    // at or right of the left end, and one left of it by less than the clearance.
    fn is_clear(&self, tie: Tie, slot: Slot) -> bool {
        let Some(end) = self.left_end(slot) else {
            return true;
        };
        let (site, label) = (tie.site, tie.slot);
        let over = label.height.abs_diff(slot.height);
        let near = site.y.abs_diff(slot.height);
        let between = site.y.min(label.height)..=site.y.max(label.height);
        let is_crossed = end <= site.x && between.contains(&slot.height);
        let is_counted = u16::from(end) < u16::from(site.x) + u16::from(self.terms.clearance);
        let gap = self.sheet.gap;
        label == slot || gap <= over && !is_crossed && (!is_counted || gap <= near)
    }

    // Rules 1 to 5: the colours, then each site and each slot.
    pub fn is_lawful(&self) -> bool {
        let slots = self.sheet.slots();
        let is_clear = |tie: &Tie| slots.iter().all(|slot| self.is_clear(*tie, *slot));
        self.keeps_colours_apart() && self.keeps_bounds() && self.ties.iter().all(is_clear)
    }

    // A site's share of the length: its drop without its sign, and the charge if the drop is not zero. The drop is its label's height
    // less its own, below zero when the backbone lies above it.
    fn share(&self, tie: Tie) -> u32 {
        let drop = drop_of(tie.slot.height, tie.site.y);
        if drop == 0 {
            return 0;
        }
        magnitude(drop) + u32::from(self.terms.charge.unwrap_or(0))
    }

    // The labels and their backbones; a slot that is not used counts nothing.
    fn backbones(&self) -> Size {
        let width = self.sheet.width;
        let mut size = Size::default();
        for end in self
            .sheet
            .slots()
            .iter()
            .filter_map(|slot| self.left_end(*slot))
        {
            size.labels = size.labels.saturating_add(1);
            size.length = size.length.saturating_add(u32::from(width.abs_diff(end)));
        }
        size
    }

    // Rule 6: the number of labels, and the length of backbones and the sites' shares of it.
    pub fn size(&self) -> Size {
        let mut size = self.backbones();
        for tie in self.ties {
            size.length = size.length.saturating_add(self.share(*tie));
        }
        size
    }
}

// A site's drop: its label's height less its own, below zero when the backbone lies above it.
fn drop_of(label: u8, y: u8) -> i32
    ensures { nat_abs result ≤ 255 }
{
    i32::from(label) - i32::from(y)
}

// A drop without its sign.
fn magnitude(drop: i32) -> u32
    requires { nat_abs drop ≤ 255 }
    ensures { result ≤ 255 }
{
    if drop < 0 {
        return (-drop) as u32;
    }
    drop as u32
}
