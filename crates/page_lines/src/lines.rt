// A line of each sort: of a used slot, of a site, and the last.
ghost use Rattle.std.specs.Prelude.{◌<◌};
ghost use Rattle.lists.specs.Signs.{sign_top};
ghost use Rattle.text.specs.Puts.{Puts};
ghost use Rattle.page_lines.specs.Columns.{field, field_after};
ghost use Rattle.page_lines.specs.Lines.{slot_line, drop_text, site_line, total_line};

use crate::columns::{Columns, put_end, put_field, put_plain};
use std::cmp::Ordering;
use text::Text;
use words::drops::{drop_of, magnitude};

// The columns of a label's line.
const SLOT: Columns = Columns {
    after: 0,
    from: 1,
    to: 3,
};

const COLOUR: Columns = Columns {
    after: 3,
    from: 5,
    to: 6,
};

const SITES: Columns = Columns {
    after: 6,
    from: 8,
    to: 9,
};

const HEIGHT: Columns = Columns {
    after: 9,
    from: 11,
    to: 18,
};

const LENGTH: Columns = Columns {
    after: 18,
    from: 20,
    to: 27,
};

// Those of a site's, after its six bytes.
const SITE: Columns = Columns {
    after: 6,
    from: 8,
    to: 10,
};

const TIE: Columns = Columns {
    after: 10,
    from: 12,
    to: 14,
};

const DROP: Columns = Columns {
    after: 14,
    from: 16,
    to: 23,
};

// Those of the last, after its five bytes.
const COUNT: Columns = Columns {
    after: 5,
    from: 8,
    to: 10,
};

const TOTAL: Columns = Columns {
    after: 10,
    from: 20,
    to: 27,
};

// A label's numbers, in the order of its line.
#[derive(Drop)]
pub struct Label {
    pub slot: u32,
    pub colour: u32,
    pub sites: u32,
    pub height: u32,
    pub length: u32,
}

pub fn put_slot_line(text: &mut Text, label: Label)
    ensures { Puts text.old text.new (slot_line label.slot label.colour label.sites label.height label.length) }
{
    put_plain(text, SLOT, u64::from(label.slot));
    put_plain(text, COLOUR, u64::from(label.colour));
    put_plain(text, SITES, u64::from(label.sites));
    put_plain(text, HEIGHT, u64::from(label.height));
    put_plain(text, LENGTH, u64::from(label.length));
    put_end(text, LENGTH.to);
}

// A drop, by the height of its slot and its own: + or - just before its digits, none at zero.
fn put_drop(text: &mut Text, columns: Columns, height: u32, y: u32)
    requires { (height < sign_top) × (y < sign_top) }
    ensures { Puts text.old text.new (field_after columns.after (field columns.from columns.to (drop_text height y))) }
{
    let drop = drop_of(height, y);
    let sign: &[u8] = match drop.cmp(&0) {
        Ordering::Greater => b"+",
        Ordering::Less => b"-",
        Ordering::Equal => b"",
    };
    put_field(text, columns, sign, u64::from(magnitude(drop)));
}

pub fn put_site_line(text: &mut Text, site: u32, slot: u32, height: u32, y: u32)
    requires { (height < sign_top) × (y < sign_top) }
    ensures { Puts text.old text.new (site_line site slot height y) }
{
    text.put_bytes(b"  drop");
    put_plain(text, SITE, u64::from(site));
    put_plain(text, TIE, u64::from(slot));
    put_drop(text, DROP, height, y);
    put_end(text, DROP.to);
}

pub fn put_total_line(text: &mut Text, count: u32, length: u32)
    ensures { Puts text.old text.new (total_line count length) }
{
    text.put_bytes(b"total");
    put_plain(text, COUNT, u64::from(count));
    put_plain(text, TOTAL, u64::from(length));
    put_end(text, TOTAL.to);
}
