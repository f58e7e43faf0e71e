// Which check turns a question, or an operation on one, back.
ghost use Rattle.std.specs.Prelude.{◌≡◌};
ghost use Rattle.terms_bytes.specs.Refusals.{number_of};

// One variant a check, with the check's number: docs/REFERENCE.md, the table of the checks.
#[derive(Clone, Copy, Debug, PartialEq, Eq)]
pub enum Refusal {
    Capacity = 1,
    WorkArea = 2,
    Version = 3,
    Layout = 4,
    Definitions = 5,
    TermLength = 6,
    Grammar = 7,
    UnknownDefinition = 8,
    UnknownName = 9,
    Parallel = 10,
    Unguarded = 11,
    ApartList = 12,
    ListedSide = 13,
    MergedNames = 14,
    ResultArea = 15,
    NameCount = 16,
    ConvertedLength = 17,
    ChosenNames = 18,
}

impl Refusal {
    // The number by which a caller from C is told the check.
    pub fn number(self) -> u8
        ensures { result ≡ number_of self }
    {
        self as u8
    }
}
