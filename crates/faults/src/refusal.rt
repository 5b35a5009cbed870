// A refusal, by what it says, and the number that callers are given.
ghost use Rattle.std.specs.Prelude.{◌≡◌};
ghost use Rattle.faults.specs.Refusals.{number_of};

// Of a sheet: NotASheet to TooManyBudgets; of the maker: TwoSided, WorkArea, AnswerArea (of a tool that writes into an area too) and
// NoLayout; of a stored sheet: NotALayout and BrokenRule; of the program's input: NotWords; of a stroke's place: NoStroke.
#[derive(Clone, Copy, PartialEq, Eq)]
pub enum Refusal {
    NotASheet = 1,
    WordOrder = 2,
    TooMany = 3,
    SlotOrder = 4,
    SiteOutside = 5,
    EqualRanks = 6,
    TooManyBudgets = 7,
    WorkArea = 8,
    AnswerArea = 9,
    NoLayout = 10,
    NotALayout = 11,
    NotWords = 12,
    BrokenRule = 13,
    NoStroke = 14,
    TwoSided = 18,
}

impl Refusal {
    pub fn number(self) -> u8
        ensures { result ≡ number_of self }
    {
        self as u8
    }
}
