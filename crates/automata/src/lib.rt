//! The theory below the library: words and automata, what a selector means, and when it keeps the rules of its meaning.
#![tactic(auto)]

pub mod tag;
pub mod theorems;
