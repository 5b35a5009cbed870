// Rule 3: any two used slots are at least D apart in height.
ghost use Rattle.std.specs.Prelude.{◌≡◌};
ghost use Rattle.labelling.specs.Layout.{far_by};
ghost use Rattle.rules.specs.Rules.{gaps_pass};

use words::tied::{Head, TiedSite};

// Whether labels at two heights are far enough apart. The maker asks it too. Rule 5 has the same form and stands apart: a rule is changed
// alone.
pub fn is_far(gap: u32, height: u32, other: u32) -> bool
    ensures { result ≡ far_by gap height other }
{
    gap <= height.abs_diff(other)
}

pub fn gaps_pass(h: Head, t: TiedSite, u: TiedSite) -> bool
    ensures { result ≡ gaps_pass h t u }
{
    (t.slot == u.slot) | is_far(h.gap, t.height, u.height)
}
