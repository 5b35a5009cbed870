// A rule that a layout breaks, by what it asks, and the number that callers are given.
ghost use Rattle.std.specs.Prelude.{◌≡◌};
ghost use Rattle.layouts.specs.Broken.{rule_number};

// Sites that share a slot share a colour; no colour uses more slots than its bound; used slots are at least D apart; no vertical shares a point with
// the backbone of another label; backbones lie clear of the sites of other labels; the stated totals are true.
#[derive(Clone, Copy)]
pub enum Rule {
    Colours = 1,
    Bounds,
    Gaps,
    Misses,
    Clears,
    Totals,
}

impl Rule {
    pub fn number(self) -> u8
        ensures { result ≡ rule_number self }
    {
        self as u8
    }
}
