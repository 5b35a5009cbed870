// The word of a tie, at its site's place in the answer.
ghost use Rattle.std.specs.Prelude.{◌≡◌};
ghost use Rattle.areas.specs.Ties.{TieIn, with_tie};

// A word of kind 9 with slot 0: 9 in its top four bits.
const FIRST_TIE: u32 = 2415919104;

// Ties the site of rank j, which stands at place order[j] of the sheet, to slot k.
pub fn write_tie(order: &[u32], out: &mut [u32], j: usize, k: u32)
    requires { TieIn order.now out.old j k }
    ensures { out.new ≡ with_tie order.now out.old j k }
{
    let place = order[j] as usize + 1;
    out[place] = FIRST_TIE + k;
}
