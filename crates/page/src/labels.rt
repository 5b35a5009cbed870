// A label's own numbers: its colour, how many sites it has, and its length.
ghost use Rattle.std.specs.Prelude.{◌≡◌, ◌+◌, ◌<◌, length};
ghost use Rattle.sheet.specs.Limits.{top_word};
ghost use Rattle.labelling.specs.Layout.{ties_in, layout_ties};
ghost use Rattle.decoding.specs.Decoding.{sheet_by, site_colours_in, ys_in};
ghost use Rattle.page.specs.Labels.{with_site, sums_on, sums_at, label_at};

use judge::opened::Opened;
use layouts::sites::TiedSites;
use page_lines::lines::Label;
use rules::rule_6::{own_length, site_share};
use words::get;

// Over the sites of a slot: the colour that they share, how many there are, and the sum of their shares of the length.
#[derive(Clone, Copy)]
pub struct Sums {
    pub colour: u32,
    pub sites: u32,
    pub shares: u32,
}

// With one more site, if it has the slot.
fn with_site(sums: Sums, has: bool, colour: u32, share: u32) -> Sums
    requires { (sums.sites < top_word) × (sums.shares + share < top_word) }
    ensures { result ≡ with_site sums has colour share }
{
    if !has {
        return sums;
    }
    Sums {
        colour,
        sites: sums.sites + 1,
        shares: sums.shares + share,
    }
}

// The sums over all sites.
fn sums_of(sites: &TiedSites, slot: u32) -> Sums
    ensures { result ≡ sums_on sites.now.head slot sites.now.heights.now (ys_in sites.now.sites.now) (site_colours_in sites.now.sites.now) (ties_in sites.now.ties.now) (length sites.now.ties.now) }
{
    let mut sums = Sums {
        colour: 0,
        sites: 0,
        shares: 0,
    };
    for i in 0..sites.count() {
        let site = sites.site_at(i);
        let at = sites.slot_at(i);
        let share = site_share(sites.head, get(sites.heights, at), site.y);
        sums = with_site(sums, at == slot, site.colour, share);
    }
    sums
}

// The sums over the sites of a slot, on a stored sheet that was opened.
fn sums_at(opened: &Opened, slot: u32) -> Sums
    ensures { result ≡ sums_at (sheet_by opened.now.numbers) (layout_ties opened.now.layout.now) slot }
{
    sums_of(&opened.sites(), slot)
}

pub fn label_at(opened: &Opened, slot: u32) -> Label
    ensures { result ≡ label_at (sheet_by opened.now.numbers) (layout_ties opened.now.layout.now) slot }
{
    let height = get(&opened.numbers.heights, slot);
    let sums = sums_at(opened, slot);
    let left = opened.left_end(slot);
    Label {
        slot,
        colour: sums.colour,
        sites: sums.sites,
        height,
        length: own_length(opened.numbers.head.width, left, sums.shares),
    }
}
