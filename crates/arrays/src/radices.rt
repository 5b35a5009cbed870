// The radices by which a budget is taken apart: a digit for each colour.
ghost use Rattle.arrays.specs.Budgets.{Divides};

// None is 0.
#[derive(Clone, Copy)]
pub struct Radices<'a> {
    pub list: &'a [u32],
    ghost divides: { Divides list.now },
}
