//! Why a command stops early.
use crate::USAGE;
use std::alloc::AllocError;
use std::{fmt, io};
use text::refusal::Refusal;

/// What was wrong with the words, or refused, or not to be had.
#[derive(Drop)]
pub enum Stop<'a> {
    /// The words ask for nothing that there is.
    Words,
    /// A file cannot be read.
    Unreadable { path: &'a str, error: io::Error },
    /// A file is refused as a whole.
    Text { path: &'a str, refusal: Refusal },
    /// A path over labels is refused.
    Path { path: &'a str, refusal: Refusal },
    /// The selector that was asked for does not serve the query.
    Selector(Refusal),
    System(anyhow::Error),
}

impl fmt::Display for Stop<'_> {
    fn fmt<W: fmt::Write>(&self, f: &mut fmt::Formatter<W>) -> fmt::Result {
        match self {
            Stop::Words => write!(f, "{USAGE}"),
            Stop::Unreadable { path, error } => write!(f, "cannot read {path}: {error}"),
            Stop::Text { path, refusal } => {
                let line = line_of(*refusal);
                write!(f, "refused {}: {path}{line}: {refusal}", u8::from(*refusal))
            }
            Stop::Path { path, refusal } => {
                write!(
                    f,
                    "refused {}: path `{path}`: {refusal}",
                    u8::from(*refusal)
                )
            }
            Stop::Selector(refusal) => write!(f, "refused {}: {refusal}", u8::from(*refusal)),
            Stop::System(error) => write!(f, "{error}"),
        }
    }
}

// The line that a rule speaks of, where it is always the same one.
fn line_of(refusal: Refusal) -> &'static str {
    match refusal {
        Refusal::NotLabels | Refusal::BadName | Refusal::NameCount | Refusal::NameTwice =>
            ", line 1",
        Refusal::StatesLine => ", line 2",
        _ => "",
    }
}

impl From<io::Error> for Stop<'_> {
    fn from(error: io::Error) -> Self {
        Stop::System(error.into())
    }
}

impl From<AllocError> for Stop<'_> {
    fn from(error: AllocError) -> Self {
        Stop::System(error.into())
    }
}

impl From<anyhow::Error> for Stop<'_> {
    fn from(error: anyhow::Error) -> Self {
        Stop::System(error)
    }
}
