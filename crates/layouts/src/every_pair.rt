// Rules 1, 3, 4 and 5 of every two tied sites at once, each beside the other: where all pass, none of the four is broken, and the judge
// need not look for the first that is. The inner loop has no branch, so that it is made for several sites at a time.
ghost use Rattle.decoding.specs.Decoding.{site_colours_in, xs_in, ys_in};
ghost use Rattle.std.specs.Prelude.{◌≡◌, true, ◌<◌, length};
ghost use Rattle.labelling.specs.Layout.{ties_in};
ghost use Rattle.layouts.specs.Model.{tied_at, flaws_at, AllPairsPass};

use crate::flaws::flaw;
use crate::sites::TiedSites;

// How many of the sites before i fail a test with site i.
fn flaws_at(sites: &TiedSites, i: usize) -> u32
    requires { i < length sites.now.ties.now }
    ensures { result ≡ flaws_at sites.now.head (tied_at sites.now.heights.now (xs_in sites.now.sites.now) (ys_in sites.now.sites.now) (site_colours_in sites.now.sites.now) (ties_in sites.now.ties.now)) i }
{
    let t = sites.tied_at(i);
    let mut n = 0;
    for j in 0..i {
        n += flaw(sites.head, t, sites.tied_at(j));
    }
    n
}

// Whether every two tied sites pass every test: a yes is sure.
pub fn every_pair_passes(sites: &TiedSites) -> bool
    ensures { result ≡ true → AllPairsPass sites.now.head (tied_at sites.now.heights.now (xs_in sites.now.sites.now) (ys_in sites.now.sites.now) (site_colours_in sites.now.sites.now) (ties_in sites.now.ties.now)) (length sites.now.ties.now) }
{
    (0..sites.count()).all(|i| flaws_at(sites, i) == 0)
}
