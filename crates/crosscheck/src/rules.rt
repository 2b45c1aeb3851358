//! The rules that this program judges by; not the library's refusals, which are held to their numbers.

/// A rule that refuses. The discriminants are the numbers that are to be reported.
#[derive(Clone, Copy)]
pub enum Rule {
    NotRegisterless = 13,
    NotStackless = 14,
    Limit = 15,
    Label = 16,
    AfterRoot = 17,
    TooDeep = 18,
    TooMany = 19,
    NothingOpen = 20,
    TagLine = 21,
    UnknownName = 22,
}

impl From<Rule> for u8 {
    fn from(rule: Rule) -> u8 {
        rule as u8
    }
}
