// The maker's refusals before an accepted sheet is laid out, in their order: 18, 8 and 9.
ghost use Rattle.std.specs.Prelude.{◌≡◌};
ghost use Rattle.faults.specs.Faults.{maker_fault};
ghost use Rattle.faults.specs.Refusals.{number_in};

use crate::refusal::Refusal;

// TwoSided; WorkArea, the work area has fewer words than needed; AnswerArea, the answer area has no word more than sites.
pub fn maker_fault(
    two_sided: bool,
    needed: usize,
    sites: usize,
    work: usize,
    out: usize,
) -> Result<(), Refusal>
    ensures { number_in result ≡ maker_fault 0 two_sided needed sites work out }
{
    if two_sided {
        return Err(Refusal::TwoSided);
    }
    if work < needed {
        return Err(Refusal::WorkArea);
    }
    if out <= sites {
        return Err(Refusal::AnswerArea);
    }
    Ok(())
}
