// Refusal 7 through a whole sheet: P, the product of the bounds plus one, above 64. `body`: a sheet's words after its head.
ghost use Rattle.std.specs.Prelude.{◌≡◌, ltb};
ghost use Rattle.sheet.specs.Limits.{most_budgets};
ghost use Rattle.sheet.specs.Sheet.{colours_in, product_of};
ghost use Rattle.refusals.specs.Wordwise.{capped};

use refusals::refusal_7::{factor, is_too_many};
use words::MOST_BUDGETS;

// P, or one more than the most where it is above that: it stops there, so that no product is too large.
fn product(body: &[u32]) -> u32
    ensures { result ≡ capped (product_of (colours_in body.now)) }
{
    let mut p = 1;
    for w in body {
        p *= factor(*w);
        if MOST_BUDGETS < p {
            return MOST_BUDGETS + 1;
        }
    }
    p
}

pub fn exceeds_budgets(body: &[u32]) -> bool
    ensures { result ≡ ltb most_budgets (product_of (colours_in body.now)) }
{
    is_too_many(product(body))
}
