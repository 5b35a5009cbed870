// Refusal 6: two sites with equal x, so with equal rank. The test on a word; through a whole sheet: reader, `refusal_6`.
ghost use Rattle.std.specs.Prelude.{◌≡◌};
ghost use Rattle.refusals.specs.Wordwise.{is_ranked};

use words::kinds::{Kind, is_kind};
use words::rank_of;

// A word is a site of this rank. Asked of every two sites: `&` and no branch, so that several words are looked at at a time.
pub fn is_ranked(rank: u32, w: u32) -> bool
    ensures { result ≡ is_ranked rank w }
{
    is_kind(w, Kind::Site) & (rank_of(w) == rank)
}
