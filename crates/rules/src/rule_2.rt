// Rule 2: no colour uses more slots than its bound.
ghost use Rattle.std.specs.Prelude.{◌≡◌, eqb, leb};
ghost use Rattle.sheet.specs.Limits.{unbounded};

// Whether a bound forbids nothing.
pub fn is_unbounded(bound: u32) -> bool
    ensures { result ≡ eqb bound unbounded }
{
    bound == words::UNBOUNDED
}

// Whether so many labels are within a bound.
pub fn is_within(labels: usize, bound: u32) -> bool
    ensures { result ≡ leb labels bound }
{
    labels <= bound as usize
}
