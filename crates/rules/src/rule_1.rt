// Rule 1: sites that share a slot share a colour.
ghost use Rattle.std.specs.Prelude.{◌≡◌};
ghost use Rattle.rules.specs.Rules.{colours_pass};

use words::tied::TiedSite;

pub fn colours_pass(t: TiedSite, u: TiedSite) -> bool
    ensures { result ≡ colours_pass t u }
{
    (t.slot != u.slot) | (t.colour == u.colour)
}
