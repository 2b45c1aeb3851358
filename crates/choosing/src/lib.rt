//! Which selector serves a query, and whole runs of it. No heap.
#![tactic(auto)]

pub mod chosen;
pub mod kind;
pub mod reading;
