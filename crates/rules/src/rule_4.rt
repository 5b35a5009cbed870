// Rule 4: no vertical shares a point with the backbone of another label.
ghost use Rattle.std.specs.Prelude.{◌≡◌};
ghost use Rattle.labelling.specs.Layout.{is_between, vertical_has};
ghost use Rattle.rules.specs.Rules.{misses_pass};

use words::tied::{Head, TiedSite, start_of};

// Whether a height lies between two others, both included.
fn is_between(low: u32, high: u32, h: u32) -> bool
    ensures { result ≡ is_between low high h }
{
    (low..=high).contains(&h)
}

// Whether the vertical from y to its end has a point at a height.
fn vertical_has(y: u32, end: u32, h: u32) -> bool
    ensures { result ≡ vertical_has y end h }
{
    is_between(y.min(end), y.max(end), h)
}

// Whether t's vertical misses the backbone of u's label.
pub fn misses_pass(h: Head, t: TiedSite, u: TiedSite) -> bool
    ensures { result ≡ misses_pass h t u }
{
    let reached = start_of(h, u) <= t.x;
    let meets = reached & vertical_has(t.y, t.height, u.height);
    (t.slot == u.slot) | !meets
}
