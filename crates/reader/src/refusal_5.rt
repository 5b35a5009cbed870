// Refusal 5 through a whole sheet: a site's x above the width. `body`: a sheet's words after its head.
ghost use Rattle.std.specs.Prelude.{◌≡◌};
ghost use Rattle.sheet.specs.Sheet.{all, sites_in, inside_by};

use refusals::refusal_5::width_ok;

pub fn all_inside(body: &[u32], width: u32) -> bool
    ensures { result ≡ all (inside_by width) (sites_in 0 body.now) }
{
    body.iter().all(|w| width_ok(width, *w))
}
