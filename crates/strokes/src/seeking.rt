// Which slot's backbone, or which site's drop, is the stroke of a place.
ghost use Rattle.std.specs.Prelude.{◌≡◌, ℕ, Bool, ◌<◌};
ghost use Rattle.sheet.specs.Limits.{top_word};
ghost use Rattle.labelling.specs.Layout.{is_used, layout_ties, tie_at};
ghost use Rattle.labelling.specs.Strokes.{is_off};
ghost use Rattle.decoding.specs.Decoding.{sheet_by};
ghost use Rattle.strokes.specs.Seeking.{sought_in};

use judge::opened::Opened;
use points::stroke::is_off;
use words::get;

// Whether a slot has a backbone: whether it is used.
pub fn has_bone(opened: &Opened, slot: usize) -> bool
    requires { slot < top_word }
    ensures { result ≡ is_used slot (layout_ties opened.now.layout.now) }
{
    opened.is_used(slot as u32)
}

// Whether a site has a drop: whether it is off its backbone.
pub fn has_drop(opened: &Opened, i: usize) -> bool
    requires { i < opened.now.numbers.sites }
    ensures { result ≡ is_off (sheet_by opened.now.numbers) (tie_at (sheet_by opened.now.numbers) (layout_ties opened.now.layout.now) i) }
{
    let sites = opened.sites();
    is_off(get(sites.heights, sites.slot_at(i)), sites.site_at(i).y)
}

// The number, among so many, that is listed and before which as many are as the place says; where the list is shorter, how many places are left.
pub fn seek<F: Fn(usize) -> bool>(count: usize, place: usize, is_listed: F) -> Result<usize, usize>
    requires { (i : ℕ) → i < count → F.pre is_listed i }
    ensures { (t : ℕ → Bool) → ((i : ℕ) (b : Bool) → i < count → F.post is_listed i b → b ≡ t i) → result ≡ sought_in t 0 count place }
{
    let mut left = place;
    for i in 0..count {
        if is_listed(i) {
            if left == 0 {
                return Ok(i);
            }
            left -= 1;
        }
    }
    Err(left)
}
