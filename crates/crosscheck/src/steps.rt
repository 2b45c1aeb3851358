//! Paths by their meaning: which lists of labels a list of steps means.
use std::alloc::{AllocError, Global};

// Steps and tests are not the library's, with which the evaluator shares no code.
/// Which labels a step fits: one, or every label.
#[derive(Clone, Copy)]
pub enum Test {
    Label(u8),
    Any,
}

impl Test {
    // Whether the label fits.
    fn fits(self, label: u8) -> bool {
        match self {
            Test::Label(wanted) => label == wanted,
            Test::Any => true,
        }
    }
}

/// One label that fits the test; where it descends, any labels before it.
#[derive(Clone, Copy)]
pub struct Step {
    pub descend: bool,
    pub test: Test,
}

impl Step {
    /// `/t` for a label.
    pub fn child(label: u8) -> Step {
        Step {
            descend: false,
            test: Test::Label(label),
        }
    }

    /// `//t` for a label.
    pub fn descendant(label: u8) -> Step {
        Step {
            descend: true,
            test: Test::Label(label),
        }
    }
}

/// Whether the steps mean the whole list: for each number of steps in turn, which fronts of the list they mean.
pub fn means(heap: Global, steps: &[Step], labels: &[u8]) -> Result<bool, AllocError> {
    let mut fronts = vec![in heap; false; labels.len().saturating_add(1)]?;
    if let Some(empty) = fronts.first_mut() {
        *empty = true;
    }
    for step in steps {
        fronts = longer(heap, *step, fronts.as_slice(), labels)?;
    }
    Ok(fronts.as_slice().last() == Some(&true))
}

// Which fronts a further step leads to from these; a front goes by its length.
fn longer(
    heap: Global,
    step: Step,
    fronts: &[bool],
    labels: &[u8],
) -> Result<Vec<bool>, AllocError> {
    let mut next = Vec::with_capacity(heap, fronts.len())?;
    next.push(false)?;
    let mut begun = false;
    for (front, label) in fronts.iter().zip(labels) {
        begun = *front || (step.descend && begun);
        next.push(begun && step.test.fits(*label))?;
    }
    Ok(next)
}
