// A field of a line, and the line's end. Columns count from 1.
ghost use Rattle.std.specs.Prelude.{[], ◌∷◌, ◌++◌, ◌-◌, replicate};
ghost use Rattle.sizes.specs.Pages.{line_columns};
ghost use Rattle.text.specs.Text.{blank, line_feed, decimal};
ghost use Rattle.text.specs.Puts.{Puts};
ghost use Rattle.page_lines.specs.Columns.{field, field_after};

use sizes::page::LINE_COLUMNS;
use text::Text;

// The columns from one to another, after so many that are written.
#[derive(Drop)]
pub struct Columns {
    pub after: usize,
    pub from: usize,
    pub to: usize,
}

// A number at the right of its columns, with bytes just before its digits; blanks up to these columns.
pub fn put_field(text: &mut Text, columns: Columns, before: &[u8], n: u64)
    ensures { Puts text.old text.new (field_after columns.after (field columns.from columns.to (before.now ++ decimal n))) }
{
    let start = columns.from.saturating_sub(1);
    text.put_blanks(start.saturating_sub(columns.after));
    text.put_number(columns.to.saturating_sub(start), before, n);
}

// A number without bytes before its digits.
pub fn put_plain(text: &mut Text, columns: Columns, n: u64)
    ensures { Puts text.old text.new (field_after columns.after (field columns.from columns.to (decimal n))) }
{
    put_field(text, columns, b"", n);
}

// Blanks in the columns after so many, and the line feed.
pub fn put_end(text: &mut Text, after: usize)
    ensures { Puts text.old text.new (replicate (line_columns - after) blank ++ (line_feed ∷ [])) }
{
    text.put_blanks(LINE_COLUMNS.saturating_sub(after));
    text.put_byte(b'\n');
}
