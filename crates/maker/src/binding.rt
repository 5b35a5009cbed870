// A sheet's numbers without the bounds that can't bind: fewer budgets, so a smaller table, and the same answer.
ghost use Rattle.decoding.specs.Decoding.{SheetRead};
ghost use Rattle.maker.specs.Taken.{BindingAlone};

use decoding::{Colour, Numbers};
use sizes::binding_bound;

pub fn binding_numbers(numbers: Numbers) -> Numbers
    requires { SheetRead numbers }
    ensures { BindingAlone numbers result }
{
    let mut colour_list = numbers.colour_list;
    for c in 0..numbers.kinds {
        let Colour { bound, sites } = colour_list[c];
        let bound = binding_bound(bound, sites);
        colour_list[c] = Colour { bound, sites };
    }
    Numbers {
        colour_list,
        ..numbers
    }
}
