//! Paths over labels, and the table of the position sets that a path reaches. No heap.
#![tactic(auto)]

pub mod path;
mod positions;
pub mod samples;
mod sets;
