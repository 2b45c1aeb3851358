//! The C interface for a controller's firmware: numbers and lent memory. No heap.
// The exported functions take slices one by one and return a number, since C has neither `Result` nor enums with fields.
#![tactic(auto)]

mod failure;
pub mod grade;
mod laying;
mod lent;
pub mod pick;
mod query;
