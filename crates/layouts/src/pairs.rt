// Rules 1, 3, 4 and 5: what each asks of two tied sites, and whether every two of a layout pass it.
ghost use Rattle.decoding.specs.Decoding.{site_colours_in, xs_in, ys_in};
ghost use Rattle.std.specs.Prelude.{◌≡◌, ◌<◌, ◌≤◌, Bool, length};
ghost use Rattle.labelling.specs.Layout.{ties_in};
ghost use Rattle.rules.specs.Rules.{colours_pass, gaps_pass, misses_pass, clears_pass};
ghost use Rattle.words.specs.declared.tied.Head.{Head};
ghost use Rattle.words.specs.declared.tied.TiedSite.{TiedSite};
ghost use Rattle.layouts.specs.Model.{tied_at, passes_from, pairs_pass, AsksBoth};

use crate::sites::TiedSites;
use rules::rule_1::colours_pass;
use rules::rule_3::gaps_pass;
use rules::rule_4::misses_pass;
use rules::rule_5::clears_pass;
use words::tied::{Head, TiedSite};

// A rule of two tied sites.
pub trait PairRule {
    ghost kept: { Head → TiedSite → TiedSite → Bool };

    // Whether t passes beside u.
    fn passes(h: Head, t: TiedSite, u: TiedSite) -> bool
        ensures { result ≡ kept h t u };
}

pub struct Colours;

impl PairRule for Colours {
    ghost kept = { λ h t u. colours_pass t u };

    fn passes(_: Head, t: TiedSite, u: TiedSite) -> bool {
        colours_pass(t, u)
    }
}

pub struct Gaps;

impl PairRule for Gaps {
    ghost kept = { gaps_pass };

    fn passes(h: Head, t: TiedSite, u: TiedSite) -> bool {
        gaps_pass(h, t, u)
    }
}

pub struct Misses;

impl PairRule for Misses {
    ghost kept = { misses_pass };

    fn passes(h: Head, t: TiedSite, u: TiedSite) -> bool {
        misses_pass(h, t, u)
    }
}

pub struct Clears;

impl PairRule for Clears {
    ghost kept = { clears_pass };

    fn passes(h: Head, t: TiedSite, u: TiedSite) -> bool {
        clears_pass(h, t, u)
    }
}

// Whether a tied site passes beside each from a place on. The sites are passed by value: the loop then reads none of their fields again.
fn pass_from<R: PairRule>(sites: TiedSites<'_>, t: TiedSite, from: usize) -> bool
    requires { from ≤ length sites.ties.now }
    ensures { result ≡ passes_from R.kept sites.entry.head (tied_at sites.entry.heights.now (xs_in sites.entry.sites.now) (ys_in sites.entry.sites.now) (site_colours_in sites.entry.sites.now) (ties_in sites.entry.ties.now)) from (length sites.entry.ties.now) t }
{
    for j in from..sites.count() {
        if !R::passes(sites.head, t, sites.tied_at(j)) {
            return false;
        }
    }
    true
}

// Whether every two tied sites pass. Not put into its caller, where the rules before it hold registers.
#[inline(never)]
pub fn pairs_pass<R: PairRule>(sites: &TiedSites) -> bool
    ensures { result ≡ pairs_pass R.kept sites.now.head (tied_at sites.now.heights.now (xs_in sites.now.sites.now) (ys_in sites.now.sites.now) (site_colours_in sites.now.sites.now) (ties_in sites.now.ties.now)) (length sites.now.ties.now) }
{
    let sites = *sites;
    (0..sites.count()).all(|i| pass_from::<R>(sites, sites.tied_at(i), 0))
}

// The same of a rule that asks the same of both: each two are looked at once, from the first of them on, so that two that fail are found
// no later than in all rows.
#[inline(never)]
pub fn pairs_pass_once<R: PairRule>(sites: &TiedSites) -> bool
    requires { AsksBoth R.kept }
    ensures { result ≡ pairs_pass R.kept sites.now.head (tied_at sites.now.heights.now (xs_in sites.now.sites.now) (ys_in sites.now.sites.now) (site_colours_in sites.now.sites.now) (ties_in sites.now.ties.now)) (length sites.now.ties.now) }
{
    let sites = *sites;
    (0..sites.count()).all(
        |i|
            requires { i < length sites.ties.now }
        { pass_from::<R>(sites, sites.tied_at(i), i) },
    )
}
