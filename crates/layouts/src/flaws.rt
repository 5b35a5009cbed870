// Rules 1, 3, 4 and 5 of two tied sites at once, without a branch: whether one of them fails a test beside the other.
ghost use Rattle.std.specs.Prelude.{◌≡◌};
ghost use Rattle.layouts.specs.Flaws.{passes_both, passes_one, flaw_of};

use rules::rule_1::colours_pass;
use rules::rule_3::gaps_pass;
use rules::rule_4::misses_pass;
use rules::rule_5::clears_pass;
use words::tied::{Head, TiedSite};

// The tests that ask the same of t beside u and of u beside t: they are made once.
fn passes_both(h: Head, t: TiedSite, u: TiedSite) -> bool
    ensures { result ≡ passes_both h t u }
{
    colours_pass(t, u) & gaps_pass(h, t, u)
}

// Those that do not.
fn passes_one(h: Head, t: TiedSite, u: TiedSite) -> bool
    ensures { result ≡ passes_one h t u }
{
    misses_pass(h, t, u) & clears_pass(h, t, u)
}

// 1 if one of two fails a test beside the other, else 0.
pub fn flaw(h: Head, t: TiedSite, u: TiedSite) -> u32
    ensures { result ≡ flaw_of h t u }
{
    let passes = passes_both(h, t, u) & (passes_one(h, t, u) & passes_one(h, u, t));
    u32::from(!passes)
}
