//! What a query wants, by its meaning.
use crate::steps::{Step, means};
use crate::sums::Sum;
use std::alloc::{AllocError, Global};

/// The lists of labels that a path means, or that have a sum.
#[derive(Drop)]
pub enum Wanted {
    Path(Vec<Step>),
    Sum(Sum),
}

impl Wanted {
    /// Whether the list is wanted.
    pub fn wants(&self, heap: Global, labels: &[u8]) -> Result<bool, AllocError> {
        match self {
            Wanted::Path(steps) => means(heap, steps.as_slice(), labels),
            Wanted::Sum(sum) => Ok(sum.means(labels)),
        }
    }
}
