//! Names, labels, numbers and pieces of text, and the refusals of the whole product. No heap.
#![tactic(auto)]

pub mod labels;
pub mod list;
pub mod names;
pub mod numbers;
pub mod pieces;
pub mod refusal;

/// The most bytes of a text, or of a stream of tags.
pub const MAX_BYTES: usize = 65_536;
