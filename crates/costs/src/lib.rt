// A cost in one word, count and length by the aim: from both, of a step, and to a layout's first word.
#![tactic(auto)]

pub mod masks;

ghost use Rattle.std.specs.Prelude.{◌≡◌, ◌<◌, eqb};
ghost use Rattle.sheet.specs.Limits.{top_word, number_top};
ghost use Rattle.search.specs.Cost.{plus};
ghost use Rattle.costs.specs.Costs.{word_by, opening_by, joining_by, first_word_by, step_top};

use arrays::Measures;
use words::drops::share_of;
use words::{LENGTH_TOP, NONE, plus_of};

// Above every count of labels, and above every length: optimum/specs/CostWord has both for definitions.
const COUNT_LIMIT: u32 = 64;

const LENGTH_LIMIT: u32 = 33554432;

// Kind 8 in a word's top four bits.
const LAYOUT_KIND: u32 = 2147483648;

// Whether a cost is the one that stands for none.
pub fn is_none(cost: u32) -> bool
    ensures { result ≡ eqb cost top_word }
{
    cost == NONE
}

// A price and the cost of the rest come to a cost.
pub fn comes_to(price: u32, rest: u32, cost: u32) -> bool
    ensures { result ≡ eqb (plus top_word price rest) cost }
{
    plus_of(price, rest) == cost
}

// Count and length in one word, by the aim.
fn cost_word(q: Measures, count: u32, length: u32) -> u32
    requires { (count < 2) × (length < step_top) }
    ensures { result ≡ word_by q count length }
{
    if q.head.shortest {
        length * COUNT_LIMIT + count
    } else {
        count * LENGTH_LIMIT + length
    }
}

// What a step costs: one that opens a label for a site, whose backbone reaches from its x to the width; one that ties it to a label there is.
pub fn opening_cost(q: Measures, x: u32, height: u32, y: u32) -> u32
    requires { (q.head.width < number_top) × (q.head.charge < number_top) × (height < number_top) × (y < number_top) }
    ensures { result ≡ opening_by q x height y }
{
    let backbone = q.head.width.saturating_sub(x);
    cost_word(q, 1, backbone + share_of(q.head.charge, height, y))
}

pub fn joining_cost(q: Measures, height: u32, y: u32) -> u32
    requires { (q.head.charge < number_top) × (height < number_top) × (y < number_top) }
    ensures { result ≡ joining_by q height y }
{
    cost_word(q, 0, share_of(q.head.charge, height, y))
}

// A layout's first word from its cost.
pub fn first_word(q: Measures, cost: u32) -> u32
    ensures { result ≡ first_word_by q cost }
{
    let (count, length) = if q.head.shortest {
        (cost % COUNT_LIMIT, cost / COUNT_LIMIT)
    } else {
        (cost / LENGTH_LIMIT, cost % LENGTH_LIMIT)
    };
    LAYOUT_KIND + count * LENGTH_TOP + length
}
