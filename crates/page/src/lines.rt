// The lines of a page, from a stored sheet that was opened.
ghost use Rattle.std.specs.Prelude.{◌≡◌, cond, [], ◌<◌};
ghost use Rattle.labelling.specs.Layout.{is_used, layout_ties};
ghost use Rattle.labelling.specs.Lawful.{RuleSix};
ghost use Rattle.decoding.specs.Decoding.{sheet_by};
ghost use Rattle.text.specs.Puts.{Puts};
ghost use Rattle.page.specs.Page.{slot_line_of, site_line_of, slot_lines, site_lines, joined, page_of};

use crate::labels::label_at;
use judge::opened::Opened;
use page_lines::lines::{put_site_line, put_slot_line, put_total_line};
use text::Text;
use words::{count_field, get, length_field};

// The line of a slot, if it is used.
fn put_slot(page: &mut Text, opened: &Opened, slot: u32)
    ensures { Puts page.old page.new (cond (is_used slot (layout_ties opened.now.layout.now)) (slot_line_of (sheet_by opened.now.numbers) (layout_ties opened.now.layout.now) slot) []) }
{
    if opened.is_used(slot) {
        put_slot_line(page, label_at(opened, slot));
    }
}

// The lines of all used slots, rising.
fn put_slots(page: &mut Text, opened: &Opened)
    ensures { Puts page.old page.new (joined (slot_lines (sheet_by opened.now.numbers) (layout_ties opened.now.layout.now))) }
{
    for slot in 0..opened.numbers.slots {
        put_slot(page, opened, slot as u32);
    }
}

// The line of a site.
fn put_site(page: &mut Text, opened: &Opened, i: usize)
    requires { i < opened.now.numbers.sites }
    ensures { Puts page.old page.new (site_line_of (sheet_by opened.now.numbers) (layout_ties opened.now.layout.now) i) }
{
    let sites = opened.sites();
    let slot = sites.slot_at(i);
    let height = get(sites.heights, slot);
    put_site_line(page, i as u32, slot, height, sites.site_at(i).y);
}

// The lines of all sites, in sheet order.
fn put_sites(page: &mut Text, opened: &Opened)
    ensures { Puts page.old page.new (joined (site_lines (sheet_by opened.now.numbers) (layout_ties opened.now.layout.now))) }
{
    for i in 0..opened.numbers.sites {
        put_site(page, opened, i);
    }
}

// All lines. The last one's numbers are those that the layout states, which are true.
pub fn put_page(page: &mut Text, opened: &Opened)
    requires { RuleSix (sheet_by opened.now.numbers) opened.now.layout.now }
    ensures { Puts page.old page.new (page_of (sheet_by opened.now.numbers) (layout_ties opened.now.layout.now)) }
{
    put_slots(page, opened);
    put_sites(page, opened);
    let first = opened.layout[0];
    put_total_line(page, count_field(first), length_field(first));
}
