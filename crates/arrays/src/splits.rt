// What may be taken from each budget, listed once, so that no loop over budgets divides.
ghost use Rattle.std.specs.Prelude.{◌≡◌, ℕ, ◌<◌, length, get_or};
ghost use Rattle.arrays.specs.Budgets.{Within, part_at};

// An array with a place for each budget, and one with as many for each: arrays/specs/Budgets has both lengths for definitions.
pub const BUDGETS_LENGTH: usize = 64;

pub const SPLITS_LENGTH: usize = 4096;

// So many budgets: those that may be taken from the budget v are the first counts[v] of the parts from place v * 64 on. Both lists are lent,
// since the parts are 4 KiB, which a value would copy.
#[derive(Clone, Copy)]
pub struct Splits<'a> {
    pub budgets: u32,
    pub parts: &'a [u8],
    pub counts: &'a [u8],
    ghost within: { Within budgets parts.now counts.now },
}

impl<'a> Splits<'a> {
    // What is listed for the budget u, lent as long as the lists are.
    pub fn below(&self, u: usize) -> &'a [u8]
        requires { u < self.now.budgets }
        ensures counted { length result.now ≡ get_or self.now.counts.now u 0 }
        ensures listed { (i : ℕ) → i < length result.now → get_or result.now i 0 ≡ part_at self.now.parts.now u i }
    {
        let from = u * BUDGETS_LENGTH;
        let count = self.counts[u] as usize;
        &self.parts[from..from + count]
    }
}
