// Which budgets may be taken from a budget: one by one, and as the bits of a mask.
ghost use Rattle.std.specs.Prelude.{◌≡◌, ◌<◌};
ghost use Rattle.sheet.specs.Limits.{most_budgets};
ghost use Rattle.search.specs.Radix.{below, mask_of};

use arrays::radices::Radices;

// w may be taken from the budget v.
pub fn is_below(radices: Radices, w: u32, v: u32) -> bool
    ensures { result ≡ below radices.entry.list.now w v }
{
    let mut a = w;
    let mut b = v;
    for &radix in radices.list {
        if a % radix > b % radix {
            return false;
        }
        a /= radix;
        b /= radix;
    }
    a <= b
}

// The budgets that may be taken from v, as bits.
pub fn mask_below(radices: Radices, v: u32) -> u64
    requires { v < most_budgets }
    ensures { result ≡ mask_of radices.entry.list.now v }
{
    let mut mask: u64 = 0;
    for w in (0..v + 1).rev() {
        mask = mask * 2 + u64::from(is_below(radices, w, v));
    }
    mask
}
