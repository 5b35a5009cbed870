// What was met, counted.
use crate::calls::{Call, Refusal};
use crate::rules::Layout;
use crate::search::{Found, search};
use crate::small_sheet::{Sheet, Terms};

// What a sheet and the call with it can be.
#[derive(Clone, Copy)]
pub enum Kind {
    Any,
    TwoSided,
    Shortest,
    EqualRows,
    OnSlots,
    Charged,
    ChargeOfZero,
    WorkRefused,
    AnswerRefused,
    NoLayout,
    Answered,
    Equals,
    BoundSpent,
    ChargeAlters,
    // the answer, or refusal 10, is another than by document 01's own rule 5
    TipAlters,
    Differs,
}

// In the order in which their counts are printed.
pub const KINDS: [Kind; 16] = [
    Kind::Any,
    Kind::TwoSided,
    Kind::Shortest,
    Kind::EqualRows,
    Kind::OnSlots,
    Kind::Charged,
    Kind::ChargeOfZero,
    Kind::WorkRefused,
    Kind::AnswerRefused,
    Kind::NoLayout,
    Kind::Answered,
    Kind::Equals,
    Kind::BoundSpent,
    Kind::ChargeAlters,
    Kind::TipAlters,
    Kind::Differs,
];

fn has_equal_rows(sheet: &Sheet) -> bool {
    sheet.sites().iter().enumerate().any(|(place, site)| {
        sheet
            .sites()
            .iter()
            .take(place)
            .any(|other| other.y == site.y)
    })
}

fn has_site_on_slot(sheet: &Sheet) -> bool {
    sheet.sites().iter().any(|site| sheet.slots().iter().any(|slot| slot.height == site.y))
}

// Does the answer give some colour with a bound all the labels that it may have?
fn spends_bound(sheet: &Sheet, found: &Found) -> bool {
    let layout = Layout {
        sheet,
        terms: sheet.terms,
        ties: found.ties(),
    };
    sheet.colours().iter().any(|colour| {
        colour.bound.is_some_and(|most| 0 < most && layout.labels(*colour) == usize::from(most))
    })
}

// Is the answer another than without the charge?
fn charge_alters(sheet: &Sheet, found: &Found) -> bool {
    if matches!(sheet.terms.charge, None | Some(0)) {
        return false;
    }
    let uncharged = Terms {
        charge: None,
        ..sheet.terms
    };
    search(sheet, uncharged).is_none_or(|other| other.ties() != found.ties())
}

// Is the answer, or that there is none, another than where rule 5 counts no site left of a tip? With gap 1 it counts none.
fn tip_alters(sheet: &Sheet, found: Option<&Found>) -> bool {
    if sheet.terms.clearance == 1 {
        return false;
    }
    let uncleared = Terms {
        clearance: 1,
        ..sheet.terms
    };
    let other = search(sheet, uncleared);
    other.as_ref().map(|other| other.ties()) != found.map(|found| found.ties())
}

impl Call {
    fn is_refused(&self, refusal: Refusal) -> bool {
        matches!(self.outcome, Err(given) if given == refusal)
    }

    // Is the call of a kind? It differs if it was not right.
    fn is_of(&self, kind: Kind, right: bool) -> bool {
        let sheet = &self.sheet;
        let found = self.outcome.as_ref().ok();
        match kind {
            Kind::Any => true,
            Kind::TwoSided => sheet.two_sided,
            Kind::Shortest => sheet.shortest,
            Kind::EqualRows => has_equal_rows(sheet),
            Kind::OnSlots => has_site_on_slot(sheet),
            Kind::Charged => sheet.terms.charge.is_some(),
            Kind::ChargeOfZero => sheet.terms.charge == Some(0),
            Kind::WorkRefused => self.is_refused(Refusal::Work),
            Kind::AnswerRefused => self.is_refused(Refusal::Answer),
            Kind::NoLayout => self.is_refused(Refusal::NoLayout),
            Kind::Answered => found.is_some(),
            Kind::Equals => found.is_some_and(|found| 1 < found.equals),
            Kind::BoundSpent => found.is_some_and(|found| spends_bound(sheet, found)),
            Kind::ChargeAlters => found.is_some_and(|found| charge_alters(sheet, found)),
            Kind::TipAlters => {
                let is_searched = found.is_some() || self.is_refused(Refusal::NoLayout);
                is_searched && tip_alters(sheet, found)
            }
            Kind::Differs => !right,
        }
    }

    // Each kind that the call is of once more.
    pub fn count(&self, right: bool, counts: &mut [u32]) {
        for (count, kind) in counts.iter_mut().zip(KINDS) {
            *count = count.saturating_add(u32::from(self.is_of(kind, right)));
        }
    }
}
