// Rule 5: a backbone lies at least D in height from every site of another label at or right of its left end, or left of it by less than D.
ghost use Rattle.std.specs.Prelude.{◌≡◌};
ghost use Rattle.labelling.specs.Layout.{counts_by, clear_by};
ghost use Rattle.rules.specs.Rules.{clears_pass};

use words::tied::{Head, TiedSite, start_of};

// Whether a site at x counts against a label with this left end. The maker asks it too.
pub fn is_counted(gap: u32, left: u32, x: u32) -> bool
    ensures { result ≡ counts_by gap left x }
{
    (left <= x) | (left.saturating_sub(x) < gap)
}

// Whether a label at a height is clear of a site of height y. The maker asks it too.
pub fn is_clear(gap: u32, height: u32, y: u32) -> bool
    ensures { result ≡ clear_by gap height y }
{
    gap <= height.abs_diff(y)
}

// Whether the backbone of u's label lies at least D from t.
pub fn clears_pass(h: Head, t: TiedSite, u: TiedSite) -> bool
    ensures { result ≡ clears_pass h t u }
{
    let own = t.slot == u.slot;
    let counted = is_counted(h.gap, start_of(h, u), t.x);
    let clear = is_clear(h.gap, u.height, t.y);
    (own | !counted) | clear
}
