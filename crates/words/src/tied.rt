// A site with its tie, and what the head and the charge say of all of them.
ghost use Rattle.std.specs.Prelude.{◌≡◌};
ghost use Rattle.words.specs.Starts.{start_of};

// A site with its colour, its slot and the slot's height.
#[derive(Clone, Copy, PartialEq, Eq)]
pub struct TiedSite {
    pub x: u32,
    pub y: u32,
    pub colour: u32,
    pub slot: u32,
    pub height: u32,
}

// What stands before the slots: side, aim, gap and width, and the charge.
#[derive(Clone, Copy, PartialEq, Eq)]
pub struct Head {
    pub twosided: bool,
    pub shortest: bool,
    pub gap: u32,
    pub width: u32,
    pub charge: u32,
}

// The left end of u's label if u alone is on it. Some site of a label has its left end, so pairs are enough.
pub fn start_of(h: Head, u: TiedSite) -> u32
    ensures { result ≡ start_of h u }
{
    if h.twosided { 0 } else { u.x }
}
