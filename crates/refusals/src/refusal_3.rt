// Refusal 3: more slots, colours or sites than allowed. `body`: a sheet's words after its head.
ghost use Rattle.std.specs.Prelude.{◌≡◌};
ghost use Rattle.refusals.specs.Wordwise.{counts_fit_in};

use words::body::count_kind;
use words::kinds::Kind;
use words::{MOST_COLOURS, MOST_SITES, MOST_SLOTS};

pub fn counts_fit(body: &[u32]) -> bool
    ensures { result ≡ counts_fit_in body.now }
{
    count_kind(body, Kind::Slot) <= MOST_SLOTS
        && count_kind(body, Kind::Colour) <= MOST_COLOURS
        && count_kind(body, Kind::Site) <= MOST_SITES
}
