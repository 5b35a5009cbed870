// A stroke as C has it: one struct, whatever the case.
ghost use Rattle.std.specs.Prelude.{◌≡◌};
ghost use Rattle.faults.specs.Refusals.{numbered};
ghost use Rattle.points.specs.Strokes.{flat_ends, flat_refusal, flat_of};

use crate::stroke::{End, Stroke};
use faults::refusal::Refusal;

// A C struct, so refusal and kind are numbers.
// refusal: 1 to 7, 11, 13 or 14, 0 for none. kind: 0 a backbone, 1 a drop. The first end, the second end. All zero beside a refusal.
#[repr(C)]
#[derive(Drop)]
pub struct FlatStroke {
    pub refusal: u8,
    pub kind: u8,
    pub x0: f32,
    pub y0: f32,
    pub x1: f32,
    pub y1: f32,
}

fn flat_ends(kind: u8, first: End, second: End) -> FlatStroke
    ensures { result ≡ flat_ends kind first second }
{
    FlatStroke {
        refusal: 0,
        kind,
        x0: first.x,
        y0: first.y,
        x1: second.x,
        y1: second.y,
    }
}

fn flat_refusal(refusal: u8) -> FlatStroke
    ensures { result ≡ flat_refusal refusal }
{
    FlatStroke {
        refusal,
        kind: 0,
        x0: 0.0,
        y0: 0.0,
        x1: 0.0,
        y1: 0.0,
    }
}

impl From<Result<Stroke, Refusal>> for FlatStroke {
    ghost from_gives = { λ outcome flat. flat ≡ flat_of (numbered outcome) };

    fn from(outcome: Result<Stroke, Refusal>) -> FlatStroke {
        match outcome {
            Ok(Stroke::Bone(first, second)) => flat_ends(0, first, second),
            Ok(Stroke::Drop(first, second)) => flat_ends(1, first, second),
            Err(refusal) => flat_refusal(refusal.number()),
        }
    }
}
