// The sites of a sheet, each with its tie: what all functions over a layout are given.
ghost use Rattle.decoding.specs.Decoding.{site_colours_in, xs_in, ys_in};
ghost use Rattle.std.specs.Prelude.{◌≡◌, ◌<◌, length, get_or};
ghost use Rattle.labelling.specs.Layout.{ties_in};
ghost use Rattle.layouts.specs.Model.{Fits, Low, tied_at};

use crate::ties;
use decoding::Site;
use words::tied::{Head, TiedSite};

// The sheet's head, its slots' heights, its sites, and the ties' words. Each tie has its site, and its slot a height; all are
// so low, and the sites so few, that lengths fit.
#[derive(Clone, Copy)]
pub struct TiedSites<'a> {
    pub head: Head,
    pub heights: &'a [u32],
    pub sites: &'a [Site],
    pub ties: &'a [u32],
    pub ghost fits: { Fits heights.now sites.now ties.now },
    pub ghost low: { Low head heights.now (ys_in sites.now) },
}

impl TiedSites<'_> {
    pub fn count(&self) -> usize
        ensures { result ≡ length self.now.ties.now }
    {
        self.ties.len()
    }

    pub fn slot_at(&self, i: usize) -> u32
        requires { i < length self.now.ties.now }
        ensures { result ≡ get_or (ties_in self.now.ties.now) i 0 }
    {
        ties::slot_at(self.ties, i)
    }

    pub fn site_at(&self, i: usize) -> Site
        requires { i < length self.now.ties.now }
        ensures x { result.x ≡ get_or (xs_in self.now.sites.now) i 0 }
        ensures y { result.y ≡ get_or (ys_in self.now.sites.now) i 0 }
        ensures colour { result.colour ≡ get_or (site_colours_in self.now.sites.now) i 0 }
    {
        ties::site_at(self.sites, i)
    }

    pub fn tied_at(&self, i: usize) -> TiedSite
        requires { i < length self.now.ties.now }
        ensures { result ≡ tied_at self.now.heights.now (xs_in self.now.sites.now) (ys_in self.now.sites.now) (site_colours_in self.now.sites.now) (ties_in self.now.ties.now) i }
    {
        ties::tied_at(self.heights, self.sites, self.ties, i)
    }
}
