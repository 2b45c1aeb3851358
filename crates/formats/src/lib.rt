//! The texts that a controller reads before a run: a label line, and a table text. No heap.
#![tactic(auto)]

mod fields;
pub mod label_line;
mod rows;
mod states;
pub mod table_text;
