// The strokes of a stored sheet, for a viewer that draws from 32-bit floats in points: one a call, by its place in the list. Document 02,
// request (a). Backbones come first, by rising slot, then drops in sheet order; a drop of zero gives none. Places count from 0.
#![tactic(auto)]

mod drawing;
mod seeking;

ghost use Rattle.std.specs.Prelude.{◌≡◌};
ghost use Rattle.labelling.specs.Layout.{layout_ties};
ghost use Rattle.decoding.specs.Decoding.{sheet_by};
ghost use Rattle.faults.specs.Refusals.{numbered};
ghost use Rattle.strokes.specs.Strokes.{stroke_on, stroke_post};

use crate::drawing::{bone_of, drop_of};
use crate::seeking::{has_bone, has_drop, seek};
use faults::refusal::Refusal;
use judge::opened::{Opened, open_stored};
use points::stroke::Stroke;

// The stroke of a place of a stored sheet that was opened; 14, the place is past the last stroke.
fn stroke_on(opened: &Opened, place: usize) -> Result<Stroke, Refusal>
    ensures { numbered result ≡ stroke_on (sheet_by opened.now.numbers) (layout_ties opened.now.layout.now) place }
{
    let left = match seek(opened.numbers.slots, place, |slot| has_bone(opened, slot)) {
        Ok(slot) => return Ok(bone_of(opened, slot as u32)),
        Err(left) => left,
    };
    match seek(opened.numbers.sites, left, |i| has_drop(opened, i)) {
        Ok(i) => Ok(drop_of(opened, i)),
        Err(_) => Err(Refusal::NoStroke),
    }
}

pub fn stroke_at(stored: &[u32], place: usize) -> Result<Stroke, Refusal>
    ensures { numbered result ≡ stroke_post stored.now place }
{
    match open_stored(stored) {
        Ok(opened) => stroke_on(&opened, place),
        Err(refusal) => Err(refusal),
    }
}
