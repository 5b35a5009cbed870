// The rules in their order: the least broken one.
ghost use Rattle.decoding.specs.Decoding.{bounds_in, site_colours_in, xs_in, ys_in};
ghost use Rattle.std.specs.Prelude.{◌≡◌, length};
ghost use Rattle.labelling.specs.Layout.{ties_in};
ghost use Rattle.layouts.specs.Broken.{broken_number};
ghost use Rattle.layouts.specs.Model.{broken_on};

use crate::every_pair::every_pair_passes;
use crate::pairs::{Clears, Colours, Gaps, Misses, pairs_pass, pairs_pass_once};
use crate::rule::Rule;
use crate::rule_2::bounds_pass;
use crate::rule_6::totals_stated;
use crate::sites::TiedSites;
use decoding::Colour;

// The least broken rule of a layout that states this count and length, on a sheet that has these colours. Where every two sites are known
// to pass every test, no rule of two sites is looked for.
pub fn broken_by(sites: &TiedSites, stated: u32, colours: &[Colour]) -> Option<Rule>
    ensures { broken_number result ≡ broken_on sites.now.head stated sites.now.heights.now (bounds_in colours.now) (xs_in sites.now.sites.now) (ys_in sites.now.sites.now) (site_colours_in sites.now.sites.now) (ties_in sites.now.ties.now) (length sites.now.ties.now) }
{
    let known = every_pair_passes(sites);
    if !(known || pairs_pass_once::<Colours>(sites)) {
        return Some(Rule::Colours);
    }
    if !bounds_pass(sites, colours) {
        return Some(Rule::Bounds);
    }
    if !(known || pairs_pass_once::<Gaps>(sites)) {
        return Some(Rule::Gaps);
    }
    if !(known || pairs_pass::<Misses>(sites)) {
        return Some(Rule::Misses);
    }
    if !(known || pairs_pass::<Clears>(sites)) {
        return Some(Rule::Clears);
    }
    if !totals_stated(sites, stated) {
        return Some(Rule::Totals);
    }
    None
}
