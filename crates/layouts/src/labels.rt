// Labels, counted: those of all sites, or of a colour's, each at the first site that has its slot. No list of slots is kept.
ghost use Rattle.decoding.specs.Decoding.{site_colours_in};
ghost use Rattle.std.specs.Prelude.{◌≡◌, ◌<◌, ◌≤◌, length};
ghost use Rattle.labelling.specs.Layout.{ties_in};
ghost use Rattle.labelling.specs.Counted.{is_taken, is_first};
ghost use Rattle.layouts.specs.Model.{among_by, count_on};

use crate::ties::{site_at, slot_at};
use decoding::Site;

// The sites that are counted: all, or a colour's. What is promised of the judge's count names both (specs/Counts), so it is an enum and no closure.
#[derive(Clone, Copy)]
pub enum Among {
    All,
    Of(usize),
}

fn is_among(a: Among, sites: &[Site], i: usize) -> bool
    requires { i < length sites.now }
    ensures { result ≡ among_by a (site_colours_in sites.now) i }
{
    match a {
        Among::All => true,
        Among::Of(c) => site_at(sites, i).colour as usize == c,
    }
}

// Whether a site before i, of those that are counted, has a slot. No branch: several sites are looked at at a time.
pub fn is_taken(a: Among, sites: &[Site], ties: &[u32], slot: u32, i: usize) -> bool
    requires { (i ≤ length sites.now) × (i ≤ length ties.now) }
    ensures { result ≡ is_taken (among_by a (site_colours_in sites.now)) (ties_in ties.now) slot i }
{
    let mut found = false;
    for j in 0..i {
        found |= is_among(a, sites, j) & (slot_at(ties, j) == slot);
    }
    found
}

// Whether a site is counted and the first of those to have its slot.
pub fn is_first(a: Among, sites: &[Site], ties: &[u32], i: usize) -> bool
    requires { (i < length sites.now) × (i < length ties.now) }
    ensures { result ≡ is_first (among_by a (site_colours_in sites.now)) (ties_in ties.now) i }
{
    is_among(a, sites, i) && !is_taken(a, sites, ties, slot_at(ties, i), i)
}

// How many slots the sites that are counted have: each is counted at the first of them that has it.
pub fn labels_of(a: Among, sites: &[Site], ties: &[u32]) -> usize
    requires { length ties.now ≤ length sites.now }
    ensures { result ≡ count_on a (site_colours_in sites.now) (ties_in ties.now) (length ties.now) }
{
    (0..ties.len())
        .filter(|i| is_first(a, sites, ties, *i))
        .count()
}
