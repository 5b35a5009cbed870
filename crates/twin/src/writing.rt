// The twin's words: those of the stored sheet, copied, but for the head and the layout's first word of a two-sided one.
ghost use Rattle.std.specs.Prelude.{◌≡◌, ◌++◌, ◌≤◌, length, drop};
ghost use Rattle.labelling.specs.Layout.{length_of, first_word, stated_count, layout_ties, sheet_part, layout_part, stored_fault};
ghost use Rattle.labelling.specs.Twin.{as_one_sided, twin_head, twin_words};
ghost use Rattle.decoding.specs.Decoding.{sheet_by};

use crate::length::one_sided_length;
use judge::opened::Opened;
use words::{SIDE_PLACE, length_field, side_bit};

// A head without its side bit.
fn twin_head(w: u32) -> u32
    ensures { result ≡ twin_head w }
{
    w - side_bit(w) * SIDE_PLACE
}

// A layout's first word with the length on the one-sided sheet.
fn twin_first(opened: &Opened) -> u32
    ensures { result ≡ first_word (stated_count opened.now.layout.now) (length_of (as_one_sided (sheet_by opened.now.numbers)) (layout_ties opened.now.layout.now)) }
{
    let w = opened.layout[0];
    w - length_field(w) + one_sided_length(opened)
}

// The words over the front of the area, one after the other: `copy_from_slice` calls `memmove`, which a program in C that has no library of its own need not have.
fn copy(stored: &[u32], out: &mut [u32])
    requires { length stored.now ≤ length out.old }
    ensures { out.new ≡ stored.now ++ drop (length stored.now) out.old }
{
    for i in 0..stored.len() {
        out[i] = stored[i];
    }
}

// The twin of a stored sheet that was opened, over the front of the area.
pub fn write_words(stored: &[u32], opened: &Opened, out: &mut [u32])
    requires parts { (opened.now.sheet.now ≡ sheet_part stored.now) × (opened.now.layout.now ≡ layout_part stored.now) }
    requires lawful { stored_fault stored.now ≡ 0 }
    requires stored_in_bounds { length stored.now ≤ length out.old }
    ensures { out.new ≡ twin_words stored.now ++ drop (length stored.now) out.old }
{
    copy(stored, out);
    if !opened.numbers.head.twosided {
        return;
    }
    let at = opened.sheet.len();
    let first = twin_first(opened);
    out[0] = twin_head(stored[0]);
    out[at] = first;
}
