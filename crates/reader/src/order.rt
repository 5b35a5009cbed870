// The refusals 1 to 7 in their order, each looked for through the whole list before the next. Their tests: crate refusals.
ghost use Rattle.std.specs.Prelude.{◌≡◌};
ghost use Rattle.faults.specs.Refusals.{number_in};
ghost use Rattle.sheet.specs.Sheet.{sheet_fault};

use crate::refusal_1::is_head;
use crate::refusal_2::in_order;
use crate::refusal_4::rises;
use crate::refusal_5::all_inside;
use crate::refusal_6::ranks_differ;
use crate::refusal_7::exceeds_budgets;
use faults::refusal::Refusal;
use refusals::refusal_3::counts_fit;
use words::body::body_of;
use words::{get, low_field};

// The first refusal that applies, if one does.
#[tactic(auto, unfolding(sheet::specs::Refusals::given))]
pub fn sheet_fault(sheet: &[u32]) -> Result<(), Refusal>
    ensures { number_in result ≡ sheet_fault sheet.now }
{
    let body = body_of(sheet);
    let width = low_field(get(sheet, 0));
    if !is_head(sheet) {
        return Err(Refusal::NotASheet);
    }
    if !in_order(body) {
        return Err(Refusal::WordOrder);
    }
    if !counts_fit(body) {
        return Err(Refusal::TooMany);
    }
    if !rises(body) {
        return Err(Refusal::SlotOrder);
    }
    if !all_inside(body, width) {
        return Err(Refusal::SiteOutside);
    }
    if !ranks_differ(body) {
        return Err(Refusal::EqualRanks);
    }
    if exceeds_budgets(body) {
        return Err(Refusal::TooManyBudgets);
    }
    Ok(())
}
