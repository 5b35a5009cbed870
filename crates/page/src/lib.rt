// The page of a stored sheet, a text for the print room, in a lent area of bytes. Document 02, request (d).
#![tactic(auto)]

mod labels;
mod lines;

ghost use Rattle.std.specs.Prelude.{◌≡◌, length};
ghost use Rattle.labelling.specs.Layout.{count_of, layout_ties};
ghost use Rattle.labelling.specs.Lawful.{RuleSix};
ghost use Rattle.decoding.specs.Decoding.{sheet_by};
ghost use Rattle.faults.specs.Results.{written_of};
ghost use Rattle.sizes.specs.Pages.{bytes_for};
ghost use Rattle.page.specs.Page.{page_area, page_post};

use crate::lines::put_page;
use faults::refusal::Refusal;
use faults::written::{Written, area_fault};
use judge::opened::{Opened, open_stored};
use sizes::page::bytes_for;
use text::Text;
use words::count_field;

// How many bytes the page has. The labels are as many as the layout states, which is true.
fn page_size(opened: &Opened) -> usize
    requires { RuleSix (sheet_by opened.now.numbers) opened.now.layout.now }
    ensures { result ≡ bytes_for (count_of (sheet_by opened.now.numbers) (layout_ties opened.now.layout.now)) (length (sheet_by opened.now.numbers).sites) }
{
    let labels = count_field(opened.layout[0]) as usize;
    bytes_for(labels, opened.numbers.sites)
}

// How many bytes of the page were written, or the refusal.
fn put_stored(stored: &[u32], page: &mut [u8]) -> Result<u32, Refusal>
    ensures value { written_of result ≡ page_post stored.now page.old }
    ensures page_after { page.new ≡ page_area stored.now page.old }
{
    let opened = open_stored(stored)?;
    area_fault(page_size(&opened), page.len())?;
    let mut text = Text::new(page);
    put_page(&mut text, &opened);
    Ok(text.past() as u32)
}

// Refused: 1 to 7, 11, 13; then 9, the area has fewer bytes than the page. Written are the bytes of the page.
pub fn write_page(stored: &[u32], page: &mut [u8]) -> Written
    ensures value { result ≡ page_post stored.now page.old }
    ensures page_after { page.new ≡ page_area stored.now page.old }
{
    Written::from(put_stored(stored, page))
}
