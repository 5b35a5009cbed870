// The fields of a word, the number at a place of a list, and the sum of two costs. Each is total: its contract is one equation and asks nothing.
#![tactic(auto)]

pub mod arrays;
pub mod body;
pub mod charge;
pub mod drops;
pub mod kinds;
pub mod tied;

ghost use Rattle.std.specs.Prelude.{◌≡◌, get_or};
ghost use Rattle.sheet.specs.Limits.{top_word};
ghost use Rattle.sheet.specs.Sheet.{bits, rank_by};
ghost use Rattle.sheet.specs.Words.{rank_in};
ghost use Rattle.search.specs.Cost.{plus};

// The cost of "none": a number and no Option, since sums saturate at it and the least of two is `min`, without a branch.
pub const NONE: u32 = u32::MAX;

// The place right after the head, where a charge may stand.
pub const CHARGE_AT: u32 = 1;

// The place of a layout's first tie.
pub const TIES_AT: usize = 1;

// The limits of a sheet and the bounds of its fields: sheet/specs/Limits has them for definitions.
pub const MOST_SLOTS: usize = 48;

pub const MOST_COLOURS: usize = 8;

pub const MOST_SITES: usize = 32;

pub const MOST_BUDGETS: u32 = 64;

// The bound that stands for none in a colour's word, and so in arrays of bounds.
pub const UNBOUNDED: u32 = 255;

pub const KIND_TOP: u32 = 268435456;

pub const NUMBER_TOP: u32 = 16384;

// Above every rank.
pub const RANK_TOP: u32 = NUMBER_TOP;

pub const BYTE_TOP: u32 = 256;

pub const LENGTH_TOP: u32 = 2097152;

// The gap has 12 bits, a layout's count 7, and a colour or a tie has 20 spare ones above its lowest 8.
pub const GAP_TOP: u32 = 4096;

pub const COUNT_TOP: u32 = 128;

pub const SPARE_TOP: u32 = 1048576;

// The places of the head's bits 27 and 26.
pub const SIDE_PLACE: u32 = 134217728;

pub const AIM_PLACE: u32 = 67108864;

// Bits 13 to 0: a height, a site's y, the width, a charge.
pub fn low_field(w: u32) -> u32
    ensures { result ≡ bits w 0 14 }
{
    w % NUMBER_TOP
}

// Bits 27 to 14: a site's x; what a slot or a charge has spare.
pub fn high_field(w: u32) -> u32
    ensures { result ≡ bits w 14 14 }
{
    w / NUMBER_TOP % NUMBER_TOP
}

// A site's rank, by its numbers: its x.
#[tactic(auto, unfolding(sheet::specs::Sheet::rank_by))]
pub fn rank_by(x: u32, y: u32) -> u32
    ensures { result ≡ rank_by x y }
{
    x
}

// The rank of the site in a word.
pub fn rank_of(w: u32) -> u32
    ensures { result ≡ rank_in w }
{
    rank_by(high_field(w), low_field(w))
}

// Bits 25 to 14: the gap.
pub fn gap_field(w: u32) -> u32
    ensures { result ≡ bits w 14 12 }
{
    w / NUMBER_TOP % GAP_TOP
}

// Bits 7 to 0: a colour's bound, a tie's slot.
pub fn byte_field(w: u32) -> u32
    ensures { result ≡ bits w 0 8 }
{
    w % BYTE_TOP
}

// Bits 27 to 8: what a colour or a tie has spare.
pub fn spare_field(w: u32) -> u32
    ensures { result ≡ bits w 8 20 }
{
    w / BYTE_TOP % SPARE_TOP
}

// Bits 27 to 21: the label count that a layout's first word states.
pub fn count_field(w: u32) -> u32
    ensures { result ≡ bits w 21 7 }
{
    w / LENGTH_TOP % COUNT_TOP
}

// Bits 20 to 0: the length that it states.
pub fn length_field(w: u32) -> u32
    ensures { result ≡ bits w 0 21 }
{
    w % LENGTH_TOP
}

// Bit 27: two-sided.
pub fn side_bit(w: u32) -> u32
    ensures { result ≡ bits w 27 1 }
{
    w / SIDE_PLACE % 2
}

// Bit 26: shortest.
pub fn aim_bit(w: u32) -> u32
    ensures { result ≡ bits w 26 1 }
{
    w / AIM_PLACE % 2
}

// The number at a place, 0 outside.
pub fn get(s: &[u32], i: u32) -> u32
    ensures { result ≡ get_or s.now i 0 }
{
    s.get(i as usize).copied().unwrap_or(0)
}

// The sum of two costs, capped at NONE.
#[tactic(auto, unfolding(search::specs::Cost::plus))]
pub fn plus_of(a: u32, b: u32) -> u32
    ensures { result ≡ plus top_word a b }
{
    a.saturating_add(b)
}
