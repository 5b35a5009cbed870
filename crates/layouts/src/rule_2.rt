// Rule 2: no colour uses more slots than its bound.
ghost use Rattle.decoding.specs.Decoding.{bounds_in, site_colours_in};
ghost use Rattle.std.specs.Prelude.{◌≡◌, length};
ghost use Rattle.labelling.specs.Layout.{ties_in};
ghost use Rattle.rules.specs.Rules.{bound_kept};
ghost use Rattle.layouts.specs.declared.labels.Among as Among;
ghost use Rattle.layouts.specs.Model.{count_on, bounds_on};

use crate::labels::{Among, labels_of};
use crate::sites::TiedSites;
use decoding::Colour;
use rules::rule_2::{is_unbounded, is_within};

// Whether a colour has no more labels than its bound.
fn bound_kept(sites: &TiedSites, c: usize, bound: u32) -> bool
    ensures { result ≡ bound_kept (count_on (Among.Of c) (site_colours_in sites.now.sites.now) (ties_in sites.now.ties.now) (length sites.now.ties.now)) bound }
{
    is_unbounded(bound) || is_within(labels_of(Among::Of(c), sites.sites, sites.ties), bound)
}

// Whether no colour has more labels than its bound.
pub fn bounds_pass(sites: &TiedSites, colours: &[Colour]) -> bool
    ensures { result ≡ bounds_on (bounds_in colours.now) (site_colours_in sites.now.sites.now) (ties_in sites.now.ties.now) (length sites.now.ties.now) }
{
    colours
        .iter()
        .enumerate()
        .all(|(c, colour)| bound_kept(sites, c, colour.bound))
}
