// Refusal 2: a word of another kind, out of its order, or with a spare bit set. The test on a word; through a whole sheet: reader, `refusal_2`.
ghost use Rattle.std.specs.Prelude.{◌≡◌};
ghost use Rattle.sheet.specs.Sheet.{has_spare};
ghost use Rattle.forms.specs.Forms.{stage_after};
ghost use Rattle.forms.specs.Stages.{stage_number, stage_number_in};

use words::kinds::{Kind, is_kind};
use words::{high_field, spare_field};

// What the words so far allow: slots may come; or a colour has come, and its sites or another may.
#[derive(Clone, Copy, PartialEq, Eq)]
pub enum Stage {
    Slots,
    Colours,
}

// A bit that has no name.
fn has_spare(w: u32) -> bool
    ensures { result ≡ has_spare w }
{
    if is_kind(w, Kind::Slot) {
        return high_field(w) != 0;
    }
    is_kind(w, Kind::Colour) && spare_field(w) != 0
}

// The stage after a word; none after one that is out of its order.
pub fn stage_after(stage: Stage, w: u32) -> Option<Stage>
    ensures { stage_number_in result ≡ stage_after (stage_number stage) w }
{
    if has_spare(w) {
        return None;
    }
    if is_kind(w, Kind::Colour) {
        return Some(Stage::Colours);
    }
    let fits = match stage {
        Stage::Slots => is_kind(w, Kind::Slot),
        Stage::Colours => is_kind(w, Kind::Site),
    };
    if fits { Some(stage) } else { None }
}
