// A stored sheet opened: the words before its layout, the layout's, and the sheet's numbers. Every tool over stored sheets begins here.
ghost use Rattle.std.specs.Prelude.{◌≡◌, true, IfOk};
ghost use Rattle.sheet.specs.Sheet.{sheet_in, sheet_fault};
ghost use Rattle.labelling.specs.Layout.{left_end, is_used, is_layout, layout_ties, broken_by, sheet_part, layout_part, judge_fault, stored_fault};
ghost use Rattle.decoding.specs.Decoding.{numbers_by, sheet_by, site_colours_in, xs_in, ys_in};
ghost use Rattle.faults.specs.Refusals.{number_in};
ghost use Rattle.layouts.specs.Broken.{broken_number};
ghost use Rattle.judge.specs.Opened.{SitesRead, parts_fault};

use crate::refusal_11::{is_layout, layout_start};
use decoding::Numbers;
use faults::refusal::Refusal;
use faults::stored::{layout_fault, rule_fault};
use layouts::labels::{Among, is_taken};
use layouts::least_broken::broken_by;
use layouts::rule::Rule;
use layouts::rule_6::left_end;
use layouts::sites::TiedSites;
use reader::opened::open_sheet;
use words::TIES_AT;

// The words of an accepted sheet, those of a layout of it, and the sheet's numbers.
#[derive(Clone, Copy)]
pub struct Opened<'a> {
    pub sheet: &'a [u32],
    pub layout: &'a [u32],
    pub numbers: Numbers,
    pub ghost accepted: { sheet_fault sheet.now ≡ 0 },
    pub ghost read: { numbers ≡ numbers_by (sheet_in sheet.now) },
    pub ghost formed: { is_layout (sheet_in sheet.now) layout.now ≡ true },
}

impl Opened<'_> {
    // The sites with their ties.
    pub fn sites(&self) -> TiedSites<'_>
        ensures { SitesRead self.entry.now.numbers self.entry.now.layout.now result.head result.heights.now (xs_in result.sites.now) (ys_in result.sites.now) (site_colours_in result.sites.now) result.ties.now }
    {
        TiedSites {
            head: self.numbers.head,
            heights: &self.numbers.heights,
            sites: &self.numbers.site_list,
            ties: &self.layout[TIES_AT..],
        }
    }

    // Whether a slot is used: whether it has a label.
    pub fn is_used(&self, slot: u32) -> bool
        ensures { result ≡ is_used slot (layout_ties self.now.layout.now) }
    {
        let sites = self.sites();
        is_taken(Among::All, sites.sites, sites.ties, slot, sites.count())
    }

    // The left end of a slot's label.
    pub fn left_end(&self, slot: u32) -> u32
        ensures { result ≡ left_end (sheet_by self.now.numbers) (layout_ties self.now.layout.now) slot }
    {
        left_end(&self.sites(), slot)
    }

    // The least broken rule.
    pub fn broken_rule(&self) -> Option<Rule>
        ensures { broken_number result ≡ broken_by (sheet_in self.now.sheet.now) self.now.layout.now }
    {
        let colours = &self.numbers.colour_list[..self.numbers.kinds];
        broken_by(&self.sites(), self.layout[0], colours)
    }
}

// A sheet and the words from the first of kind 8 on.
fn open_parts<'a>(sheet: &'a [u32], layout: &'a [u32]) -> Result<Opened<'a>, Refusal>
    ensures refusal { number_in result ≡ parts_fault sheet.entry.now layout.entry.now }
    ensures parts { IfOk result (λ o. (o.sheet.now ≡ sheet.entry.now) × (o.layout.now ≡ layout.entry.now)) }
{
    let numbers = open_sheet(sheet)?;
    layout_fault(is_layout(numbers.slots, numbers.sites, layout))?;
    Ok(Opened {
        sheet,
        layout,
        numbers,
    })
}

// Refusals 1 to 7 and 11: what the judge asks.
pub fn open_layout(stored: &[u32]) -> Result<Opened<'_>, Refusal>
    ensures refusal { number_in result ≡ judge_fault stored.entry.now }
    ensures parts { IfOk result (λ o. (o.sheet.now ≡ sheet_part stored.entry.now) × (o.layout.now ≡ layout_part stored.entry.now)) }
{
    let (sheet, layout) = stored.split_at(layout_start(stored));
    open_parts(sheet, layout)
}

// Refusals 1 to 7 and 11, and 13 where the layout is not lawful: what a tool over lawful stored sheets asks.
pub fn open_stored(stored: &[u32]) -> Result<Opened<'_>, Refusal>
    ensures refusal { number_in result ≡ stored_fault stored.entry.now }
    ensures parts { IfOk result (λ o. (o.sheet.now ≡ sheet_part stored.entry.now) × (o.layout.now ≡ layout_part stored.entry.now)) }
{
    let opened = open_layout(stored)?;
    rule_fault(opened.broken_rule().is_none())?;
    Ok(opened)
}
