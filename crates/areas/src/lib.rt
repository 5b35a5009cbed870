// What is written into an area: a tie's word in the answer, and a part zeroed.
#![tactic(auto)]

pub mod ties;

ghost use Rattle.std.specs.Prelude.{◌≡◌, ◌≤◌, length};
ghost use Rattle.labelling.specs.Entry.{zeroed};

// Zeros the words from a place up to another. Internal to the maker: it asks that they lie in the area.
pub fn zero_part(area: &mut [u32], from: usize, to: usize)
    requires { (from ≤ to) × (to ≤ length area.old) }
    ensures { area.new ≡ zeroed from to area.old }
{
    for i in from..to {
        area[i] = 0;
    }
}
