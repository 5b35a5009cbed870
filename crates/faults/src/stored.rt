// Refusals 11 and 13 of a stored sheet, after those of the sheet.
ghost use Rattle.std.specs.Prelude.{◌≡◌};
ghost use Rattle.faults.specs.Faults.{layout_fault, rule_fault};
ghost use Rattle.faults.specs.Refusals.{number_in};

use crate::refusal::Refusal;

// 11, what follows an accepted sheet is not a layout of it.
pub fn layout_fault(fits: bool) -> Result<(), Refusal>
    ensures { number_in result ≡ layout_fault fits }
{
    if fits {
        Ok(())
    } else {
        Err(Refusal::NotALayout)
    }
}

// 13, a rule is broken.
pub fn rule_fault(lawful: bool) -> Result<(), Refusal>
    ensures { number_in result ≡ rule_fault lawful }
{
    if lawful {
        Ok(())
    } else {
        Err(Refusal::BrokenRule)
    }
}
