//! What a controller carries: tables, tag sources, runs and the stack selector. No heap.
#![tactic(auto)]

pub mod lines;
pub mod packed;
pub mod run;
pub mod selector;
pub mod source;
pub mod stack;
pub mod stack_selector;
pub mod table;
pub mod tag_line;
