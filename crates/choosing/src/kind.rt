//! The kinds of selectors, by their names and numbers.
ghost use Rattle.std.specs.Prelude.{◌≡◌, Some, codes};
ghost use Rattle.choosing.specs.Kinds.{word_of, number_of_kind, Named, Numbered};

use std::error::Error;
use std::fmt;
use std::str::FromStr;

/// The selectors, the least first, with their numbers in the C interface.
#[derive(Clone, Copy, PartialEq, Eq, Debug)]
pub enum SelectorKind {
    Registerless = 1,
    Stackless = 2,
    Stack = 3,
}

/// A word or a number that no selector has.
#[derive(Clone, Copy, PartialEq, Eq, Debug)]
pub struct UnknownSelector;

impl fmt::Display for SelectorKind {
    ghost output = { λ kind. Some (word_of kind) };

    fn fmt<W: fmt::Write>(&self, f: &mut fmt::Formatter<W>) -> fmt::Result {
        f.write_str(match self {
            SelectorKind::Registerless => "registerless",
            SelectorKind::Stackless => "stackless",
            SelectorKind::Stack => "stack",
        })
    }
}

impl FromStr for SelectorKind {
    type Err = UnknownSelector;

    ghost from_str_gives = { Named };

    fn from_str(word: &str) -> Result<SelectorKind, UnknownSelector> {
        match word {
            "registerless" => Ok(SelectorKind::Registerless),
            "stackless" => Ok(SelectorKind::Stackless),
            "stack" => Ok(SelectorKind::Stack),
            _ => Err(UnknownSelector),
        }
    }
}

impl TryFrom<u32> for SelectorKind {
    type Error = UnknownSelector;

    ghost try_from_gives = { Numbered };

    fn try_from(number: u32) -> Result<SelectorKind, UnknownSelector> {
        match number {
            1 => Ok(SelectorKind::Registerless),
            2 => Ok(SelectorKind::Stackless),
            3 => Ok(SelectorKind::Stack),
            _ => Err(UnknownSelector),
        }
    }
}

impl From<SelectorKind> for u32 {
    ghost from_gives = { λ kind number. number ≡ number_of_kind kind };

    fn from(kind: SelectorKind) -> u32 {
        kind as u32
    }
}

impl fmt::Display for UnknownSelector {
    ghost output = { λ _. Some (codes "no selector has this name or number") };

    fn fmt<W: fmt::Write>(&self, f: &mut fmt::Formatter<W>) -> fmt::Result {
        f.write_str("no selector has this name or number")
    }
}

impl Error for UnknownSelector {}
