//! Sets of positions in a path.
ghost use Rattle.std.specs.Prelude.{◌≡◌, ℕ, ◌<◌, ◌⊎◌, ◌↔◌, Decides};
ghost use Rattle.paths.specs.Meanings.{fits};
ghost use Rattle.paths.specs.Positions.{start_set, Holds, StepGoes, Moved};
ghost use Rattle.paths.specs.Texts.{steps_of};

use crate::path::{Path, Step, Test};
use std::marker::Model;

// One bit for each position, the lowest for the first. A type of its own beside the set of states of `grading`: this one is seen
// as a number, as the definitions number sets, and the two share `holds` and `with` alone.
#[derive(Clone, Copy, PartialEq, Eq)]
pub(crate) struct PositionSet {
    bits: u16,
}

impl Model for PositionSet {
    ghost use Rattle.std.specs.Prelude.{ℕ};

    ghost Value = { ℕ };

    ghost view = { λ s. s.bits };

    ghost inverse = { λ n. record { bits = n } };
}

impl PositionSet {
    // Position 0 alone.
    pub(crate) fn start() -> PositionSet
        ensures { result ≡ start_set }
    {
        PositionSet { bits: 1 }
    }

    // Where a label leads from the positions of the set.
    pub(crate) fn moved(self, path: &Path, label: u8) -> PositionSet
        ensures { Moved (steps_of path.now) label self result }
    {
        let mut next = PositionSet { bits: 0 };
        for (at, step) in path.steps().iter().enumerate() {
            if self.holds(at) {
                next = next.with_next(at, *step, label);
            }
        }
        next
    }

    pub(crate) fn holds(self, at: usize) -> bool
        requires { at < 16 }
        ensures { Decides result (Holds self at) }
    {
        (self.bits >> at) & 1 == 1
    }

    // The set with the positions that a label leads to from position `at`, which stands before this step.
    fn with_next(self, at: usize, step: Step, label: u8) -> PositionSet
        requires { at < 15 }
        ensures { (i : ℕ) → Holds result i ↔ (Holds self i ⊎ StepGoes step label at i) }
    {
        let kept = if step.descend { self.with(at) } else { self };
        if step.test.fits(label) {
            kept.with(at + 1)
        } else {
            kept
        }
    }

    // The set with position `at` too.
    fn with(self, at: usize) -> PositionSet
        requires { at < 16 }
        ensures { (i : ℕ) → Holds result i ↔ (Holds self i ⊎ (i ≡ at)) }
    {
        PositionSet {
            bits: self.bits | (1 << at),
        }
    }
}

impl Test {
    fn fits(self, label: u8) -> bool
        ensures { result ≡ fits self label }
    {
        match self {
            Test::Label(wanted) => label == wanted,
            Test::Any => true,
        }
    }
}
