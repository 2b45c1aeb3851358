ghost use Rattle.std.specs.Prelude.{◌≡◌};
ghost use Rattle.text.specs.Refusals.{number};

use std::error::Error;
use std::fmt;

/// Why something is refused. The discriminants are the numbers that are reported.
#[derive(Clone, Copy, PartialEq, Eq, Debug)]
pub enum Refusal {
    /// A text or byte stream is longer than 65,536 bytes.
    TooLong = 1,
    /// A label line or table text is empty or does not end with a newline.
    NoNewline = 2,
    /// The first field of the label line is not `labels`.
    NotLabels = 3,
    /// A name breaks the rule for names.
    BadName = 4,
    /// There is no name, or there are more than 16.
    NameCount = 5,
    /// A name stands twice.
    NameTwice = 6,
    /// A path is empty or longer than 200 bytes.
    PathLength = 7,
    /// A path is not a list of steps.
    NotSteps = 8,
    /// A path has more than 15 steps.
    TooManySteps = 9,
    /// A path reaches more than 32 position sets.
    TooManySets = 10,
    /// The `states` line is missing or malformed, its count is not 1 to 32, or its start is not below the count.
    StatesLine = 11,
    /// A row is malformed, out of order, missing, left over or has a target not below the count; or a line follows a label line that is read by itself.
    Row = 12,
    /// A registerless selector is wanted for a table of another grade.
    NotRegisterless = 13,
    /// A stackless selector is wanted for a table graded neither.
    NotStackless = 14,
    /// The run's limit is 0, above 65,535 or above the carry.
    Limit = 15,
    /// A tag's label is not below the label count.
    Label = 16,
    /// An opening comes after the root's closing.
    AfterRoot = 17,
    /// An opening comes when the depth is the limit.
    TooDeep = 18,
    /// An opening comes when 1,000,000 were taken.
    TooMany = 19,
    /// A closing comes at depth 0.
    NothingOpen = 20,
    /// A tag line is not a mark, a tab, a name by the rule and a newline.
    TagLine = 21,
    /// The name in a tag line is not in the label line.
    UnknownName = 22,
}

impl From<Refusal> for u8 {
    // The number that is reported.
    ghost from_gives = { λ refusal n. n ≡ number refusal };

    fn from(refusal: Refusal) -> u8 {
        refusal as u8
    }
}

// The rule behind the refusal, as a sentence about what is refused.
impl fmt::Display for Refusal {
    fn fmt<W: fmt::Write>(&self, f: &mut fmt::Formatter<W>) -> fmt::Result {
        f.write_str(match self {
            Refusal::TooLong => "it is longer than 65,536 bytes",
            Refusal::NoNewline => "it is empty or does not end with a newline",
            Refusal::NotLabels => "the first field is not `labels`",
            Refusal::BadName => "a name is not 1 to 16 bytes out of a to z, 0 to 9 and the hyphen",
            Refusal::NameCount => "there is no name, or there are more than 16",
            Refusal::NameTwice => "a name stands twice",
            Refusal::PathLength => "it is empty or longer than 200 bytes",
            Refusal::NotSteps =>
                "it is not a list of steps, each `/` or `//` and then a name of the label line or `*`",
            Refusal::TooManySteps => "it has more than 15 steps",
            Refusal::TooManySets => "it reaches more than 32 position sets",
            Refusal::StatesLine => "this is not `states`, a count of 1 to 32 and a start below it",
            Refusal::Row =>
                "a row is malformed, out of order, missing or left over, or has a target that is no state",
            Refusal::NotRegisterless =>
                "the registerless selector does not serve this query: it is of another grade",
            Refusal::NotStackless =>
                "the stackless selector does not serve this query: it is graded neither",
            Refusal::Limit =>
                "the limit is 0, above 65,535 or above the levels that the selector carries",
            Refusal::Label => "the label is not one of the table's",
            Refusal::AfterRoot => "an element opens after the root was closed",
            Refusal::TooDeep => "an element opens at the depth that is the limit",
            Refusal::TooMany => "an element opens after 1,000,000 others",
            Refusal::NothingOpen => "an element closes and none is open",
            Refusal::TagLine => "this is not a mark, a tab, a name by the rule and a newline",
            Refusal::UnknownName => "the name is not in the label line",
        })
    }
}

impl Error for Refusal {}
