// The best lawful layout of a sheet: all layouts are tried, in the order in which equals come.
ghost use Rattle.std.specs.Prelude.{◌≡◌, ◌≤◌, length, take};

use crate::rules::{Layout, Size, Tie};
use crate::small_sheet::{MOST_SITES, Sheet, Site, Terms};
use arrayvec::ArrayVec;

// A layout of a small sheet has no more ties, so that there is room for each.
type Tried = ArrayVec<Tie, MOST_SITES>;

// A layout's ties, as many as there is room for: an array and a count, since what was found is Copy and no ArrayVec is.
#[derive(Clone, Copy)]
pub struct Ties {
    all: [Tie; MOST_SITES],
    count: usize,
}

impl Ties {
    pub fn of(ties: &[Tie]) -> Self
        ensures { take result.count result.all ≡ take MOST_SITES ties.now }
    {
        let count = ties.len().min(MOST_SITES);
        let mut all = [Tie::default(); MOST_SITES];
        all[..count].copy_from_slice(&ties[..count]);
        Ties { all, count }
    }

    fn as_slice(&self) -> &[Tie]
        ensures held { result.now ≡ take self.now.count self.now.all }
        ensures few { length result.now ≤ MOST_SITES }
    {
        self.all.get(..self.count).unwrap_or(&self.all)
    }
}

#[derive(Clone, Copy)]
pub struct Found {
    // of the best layout, from left to right
    pub ties: Ties,
    pub size: Size,
    // layouts tried so far with the same count and length as the best
    pub equals: u32,
}

impl Found {
    pub fn ties(&self) -> &[Tie]
        ensures held { result.now ≡ take self.now.ties.count self.now.ties.all }
        ensures few { length result.now ≤ MOST_SITES }
    {
        self.ties.as_slice()
    }
}

// Takes a layout if it is lawful, and better than the best before it.
fn take(layout: Layout<'_>, best: &mut Option<Found>) {
    if !layout.is_lawful() {
        return;
    }
    let shortest = layout.sheet.shortest;
    let size = layout.size();
    match best {
        Some(found) if found.size.rank(shortest) < size.rank(shortest) => {}
        Some(found) if found.size.rank(shortest) == size.rank(shortest) => {
            found.equals = found.equals.saturating_add(1);
        }
        _ => {
            *best = Some(Found {
                ties: Ties::of(layout.ties),
                size,
                equals: 1,
            });
        }
    }
}

// Tries each slot for the first of the sites that are left, with all that can follow: the rightmost site's slot counts up first.
fn try_slots(
    sheet: &Sheet,
    terms: Terms,
    left: &[Site],
    ties: &mut Tried,
    best: &mut Option<Found>,
) {
    let Some((site, left)) = left.split_first() else {
        return take(Layout { sheet, terms, ties }, best);
    };
    for slot in sheet.slots() {
        let tie = Tie {
            site: *site,
            slot: *slot,
        };
        if ties.try_push(tie).is_ok() {
            try_slots(sheet, terms, left, ties, best);
            ties.pop();
        }
    }
}

// With no site there is one layout, and with no slot and some site there is none.
pub fn search(sheet: &Sheet, terms: Terms) -> Option<Found> {
    let mut sites: ArrayVec<Site, MOST_SITES> = ArrayVec::try_from(
        sheet.sites(),
    ).unwrap_or_default();
    sites.sort_unstable_by_key(|site| site.x);
    let mut best = None;
    try_slots(sheet, terms, &sites, &mut Tried::new(), &mut best);
    best
}
