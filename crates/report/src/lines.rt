// The lines of a report, each put into a text: a refusal, a layout, and the site lines of a layout.
ghost use Rattle.std.specs.Prelude.{◌≡◌, [], ◌∷◌, ◌++◌};
ghost use Rattle.sheet.specs.Sheet.{bits};
ghost use Rattle.text.specs.Text.{decimal};
ghost use Rattle.text.specs.Puts.{Puts};
ghost use Rattle.report.specs.Lines.{refused_line, layout_line, site_line, slot_at, site_lines_by, layout_text_by};

use text::Text;
use words::{byte_field, count_field, get, length_field};

// A name, a number and a last byte.
fn put_named(text: &mut Text, name: &[u8], number: u64, last: u8)
    ensures { Puts text.old text.new (name.now ++ decimal number ++ (last ∷ [])) }
{
    text.put_number(0, name, number);
    text.put_byte(last);
}

// The line of a refusal.
pub fn put_refused(text: &mut Text, number: u64)
    ensures { Puts text.old text.new (refused_line number) }
{
    put_named(text, b"refused ", number, b'\n');
}

// A site's slot: a layout's ties follow its first word. 0 where there is none.
fn slot_of(layout: &[u32], site: usize) -> u64
    ensures { result ≡ slot_at layout.now site }
{
    match layout {
        [_, ties @ ..] => ties.get(site).map_or(0, |tie| u64::from(byte_field(*tie))),
        [] => 0,
    }
}

// The line of a site.
fn put_site_line(text: &mut Text, layout: &[u32], site: usize, colour: u32)
    ensures { Puts text.old text.new (site_line site colour (slot_at layout.now site)) }
{
    put_named(text, b"site ", site as u64, b' ');
    put_named(text, b"colour ", u64::from(colour), b' ');
    put_named(text, b"slot ", slot_of(layout, site), b'\n');
}

// The lines of all sites, by their colours in sheet order.
fn put_site_lines(text: &mut Text, layout: &[u32], colours: &[u32])
    ensures { Puts text.old text.new (site_lines_by layout.now 0 colours.now) }
{
    for (site, colour) in colours.iter().enumerate() {
        put_site_line(text, layout, site, *colour);
    }
}

// The line of a layout's first word, with the label count and the length that it states.
fn put_layout_line(text: &mut Text, first: u32)
    ensures { Puts text.old text.new (layout_line (bits first 21 7) (bits first 0 21)) }
{
    put_named(text, b"labels ", u64::from(count_field(first)), b' ');
    put_named(text, b"length ", u64::from(length_field(first)), b'\n');
}

// The lines of a layout of a sheet whose sites have these colours.
pub fn put_layout(text: &mut Text, layout: &[u32], colours: &[u32])
    ensures { Puts text.old text.new (layout_text_by colours.now layout.now) }
{
    put_layout_line(text, get(layout, 0));
    put_site_lines(text, layout, colours);
}
