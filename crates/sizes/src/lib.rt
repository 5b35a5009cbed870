// Sizes, each from numbers alone: whether a bound can bind, P, the work words; the bytes of a page (page).
#![tactic(auto)]

pub mod page;

ghost use Rattle.std.specs.Prelude.{◌≡◌, ℕ, ◌<◌, ◌≤◌, get_or};
ghost use Rattle.sheet.specs.Limits.{most_slots, most_colours, most_sites, most_budgets, byte_top};
ghost use Rattle.sheet.specs.Binding.{binding_bound};
ghost use Rattle.sizes.specs.Work.{work_of};
ghost use Rattle.sizes.specs.Budgets.{radix_by, product_by};

use words::UNBOUNDED;

// A bound over so many sites: none where it is at least as many.
pub fn binding_bound(bound: u32, sites: u32) -> u32
    ensures { result ≡ binding_bound bound sites }
{
    if bound < sites { bound } else { UNBOUNDED }
}

// The radix of a bound: 1 if it is none.
pub fn radix(bound: u32) -> u32
    requires { bound < byte_top }
    ensures { result ≡ radix_by bound }
{
    if bound == UNBOUNDED { 1 } else { bound + 1 }
}

// P: the product of the radices. That of an accepted sheet is within the limit, so that no product is too large.
pub fn product_of(bounds: &[u32]) -> u32
    requires by_index { (i : ℕ) → get_or bounds.now i 0 < byte_top }
    requires bounds_bound { product_by bounds.now ≤ most_budgets }
    ensures { result ≡ product_by bounds.now }
{
    bounds.iter().map(|bound| radix(*bound)).product()
}

// The work words by side, m, C, n and P. Those of an accepted sheet are within the limits, so that the product fits.
pub fn work_for(two: bool, m: u32, c: u32, n: u32, p: u32) -> u32
    requires { (m ≤ most_slots) × (c ≤ most_colours) × (n ≤ most_sites) × (p ≤ most_budgets) }
    ensures { result ≡ work_of two m c n p }
{
    let strips = (m + 2) * (c + 1);
    if two {
        return strips * p;
    }
    let levels = strips * strips * (n + 1);
    levels * p
}
