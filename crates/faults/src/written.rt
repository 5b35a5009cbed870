// What a tool gives that writes into an area, and its refusal 9, after those of what it is given.
ghost use Rattle.std.specs.Prelude.{◌≡◌};
ghost use Rattle.faults.specs.Faults.{area_fault};
ghost use Rattle.faults.specs.Refusals.{number_in};
ghost use Rattle.faults.specs.Results.{written_of};

use crate::refusal::Refusal;

// A C struct, so its refusal is a number.
// refusal: that of what the tool is given, or 9; 0 for none. written: how many places of the area, words or bytes, 0 beside a refusal.
#[repr(C)]
#[derive(Drop)]
pub struct Written {
    pub refusal: u8,
    pub written: u32,
}

impl From<Result<u32, Refusal>> for Written {
    ghost from_gives = { λ outcome written. written ≡ written_of outcome };

    fn from(outcome: Result<u32, Refusal>) -> Written {
        match outcome {
            Ok(written) => Written {
                refusal: 0,
                written,
            },
            Err(refusal) => Written {
                refusal: refusal.number(),
                written: 0,
            },
        }
    }
}

// 9, fewer places are lent than a tool writes.
pub fn area_fault(size: usize, lent: usize) -> Result<(), Refusal>
    ensures { number_in result ≡ area_fault size lent }
{
    if lent < size {
        Err(Refusal::AnswerArea)
    } else {
        Ok(())
    }
}
