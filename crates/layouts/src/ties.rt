// A tie by its site's number: its slot, the site's own numbers, and both together.
ghost use Rattle.decoding.specs.Decoding.{site_colours_in, xs_in, ys_in};
ghost use Rattle.std.specs.Prelude.{◌≡◌, ◌<◌, length, get_or};
ghost use Rattle.labelling.specs.Layout.{ties_in};
ghost use Rattle.layouts.specs.Model.{Fits, tied_at};

use decoding::Site;
use words::byte_field;
use words::tied::TiedSite;

// The slot of a site, from its tie's word.
pub fn slot_at(ties: &[u32], i: usize) -> u32
    requires { i < length ties.now }
    ensures { result ≡ get_or (ties_in ties.now) i 0 }
{
    byte_field(ties[i])
}

// A site's own numbers.
pub fn site_at(sites: &[Site], i: usize) -> Site
    requires { i < length sites.now }
    ensures x { result.x ≡ get_or (xs_in sites.now) i 0 }
    ensures y { result.y ≡ get_or (ys_in sites.now) i 0 }
    ensures colour { result.colour ≡ get_or (site_colours_in sites.now) i 0 }
{
    sites[i]
}

// A site with its tie. Its slot has a height (refusal 11), so the place is not tested: loops over sites are then made for several at a time.
pub fn tied_at(heights: &[u32], sites: &[Site], ties: &[u32], i: usize) -> TiedSite
    requires fits { Fits heights.now sites.now ties.now }
    requires i_in_bounds { i < length ties.now }
    ensures { result ≡ tied_at heights.now (xs_in sites.now) (ys_in sites.now) (site_colours_in sites.now) (ties_in ties.now) i }
{
    let Site { x, y, colour } = site_at(sites, i);
    let slot = slot_at(ties, i);
    TiedSite {
        x,
        y,
        colour,
        slot,
        height: heights[slot as usize],
    }
}
