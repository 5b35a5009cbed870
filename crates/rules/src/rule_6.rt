// Rule 6: the count and the length that a layout's first word states are true.
ghost use Rattle.std.specs.Prelude.{◌≡◌, ◌+◌, ◌<◌};
ghost use Rattle.sheet.specs.Limits.{number_top, top_word};
ghost use Rattle.labelling.specs.Layout.{share_by};
ghost use Rattle.labelling.specs.Labels.{own_length};
ghost use Rattle.rules.specs.Rules.{is_stated};

use words::drops::share_of;
use words::tied::Head;
use words::{count_field, length_field};

// What a site adds to the length beside its label's backbone.
pub fn site_share(h: Head, height: u32, y: u32) -> u32
    requires { (h.charge < number_top) × (height < number_top) × (y < number_top) }
    ensures { result ≡ share_by h.charge height y }
{
    share_of(h.charge, height, y)
}

// What a label adds to the length: its backbone, from its left end to the width, and its sites' shares.
pub fn own_length(width: u32, left: u32, shares: u32) -> u32
    requires { width + shares < top_word }
    ensures { result ≡ own_length width left shares }
{
    width.saturating_sub(left) + shares
}

// Whether the word states this count and this length.
pub fn is_stated(w: u32, count: usize, length: u32) -> bool
    ensures { result ≡ is_stated w count length }
{
    (count_field(w) as usize == count) & (length_field(w) == length)
}
