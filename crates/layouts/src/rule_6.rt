// Rule 6: the count is the number of used slots; the length is that of all backbones and drops.
ghost use Rattle.decoding.specs.Decoding.{site_colours_in, xs_in, ys_in};
ghost use Rattle.std.specs.Prelude.{◌≡◌, ◌<◌, length};
ghost use Rattle.labelling.specs.Layout.{ties_in};
ghost use Rattle.layouts.specs.Model.{left_on, length_by, count_on, length_on, stated_on};
ghost use Rattle.layouts.specs.declared.labels.Among as Among;

use crate::labels::{Among, is_first};
use crate::sites::TiedSites;
use rules::rule_6::{is_stated, site_share};
use words::get;

// The left end of a slot's label.
pub fn left_end(sites: &TiedSites, slot: u32) -> u32
    ensures { result ≡ left_on sites.now.head (xs_in sites.now.sites.now) (ties_in sites.now.ties.now) (length sites.now.ties.now) slot }
{
    if sites.head.twosided {
        return 0;
    }
    let mut low = sites.head.width;
    for i in 0..sites.count() {
        if sites.slot_at(i) == slot {
            low = low.min(sites.site_at(i).x);
        }
    }
    low
}

// What a site adds to the length: its label's backbone if it is the first of its label, and its own share.
fn site_length(sites: &TiedSites, first: bool, i: usize) -> u32
    requires { i < length sites.now.ties.now }
    ensures { result ≡ length_by sites.now.head first sites.now.heights.now (xs_in sites.now.sites.now) (ys_in sites.now.sites.now) (ties_in sites.now.ties.now) (length sites.now.ties.now) i }
{
    let slot = sites.slot_at(i);
    let share = site_share(sites.head, get(sites.heights, slot), sites.site_at(i).y);
    if !first {
        return share;
    }
    sites.head.width.saturating_sub(left_end(sites, slot)) + share
}

// A layout's count and length.
#[derive(Drop)]
pub struct Totals {
    pub count: usize,
    pub length: u32,
}

// Each label is counted at its first site. So few sites that the sum fits.
pub fn totals_of(sites: &TiedSites) -> Totals
    ensures count_value { result.count ≡ count_on Among.All (site_colours_in sites.now.sites.now) (ties_in sites.now.ties.now) (length sites.now.ties.now) }
    ensures length_value { result.length ≡ length_on sites.now.head sites.now.heights.now (xs_in sites.now.sites.now) (ys_in sites.now.sites.now) (site_colours_in sites.now.sites.now) (ties_in sites.now.ties.now) (length sites.now.ties.now) }
{
    let mut count = 0;
    let mut length = 0;
    for i in 0..sites.count() {
        let first = is_first(Among::All, sites.sites, sites.ties, i);
        count += usize::from(first);
        length += site_length(sites, first, i);
    }
    Totals { count, length }
}

// Whether the stated count and length are those of the ties.
pub fn totals_stated(sites: &TiedSites, stated: u32) -> bool
    ensures { result ≡ stated_on sites.now.head stated sites.now.heights.now (xs_in sites.now.sites.now) (ys_in sites.now.sites.now) (site_colours_in sites.now.sites.now) (ties_in sites.now.ties.now) (length sites.now.ties.now) }
{
    let totals = totals_of(sites);
    is_stated(stated, totals.count, totals.length)
}
