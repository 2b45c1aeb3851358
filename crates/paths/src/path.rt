//! A path: a list of steps down a tree of labels.
ghost use Rattle.std.specs.Prelude.{◌≤◌, length};
ghost use Rattle.text.specs.Lists.{items};

use text::list::ArrayList;

mod compile;
mod reading;

/// The most steps of a path.
pub const MAX_STEPS: usize = 15;

/// The most bytes of a path's text.
pub const MAX_TEXT: usize = 200;

/// Which labels a step fits: one, or every label, `*`.
#[derive(Clone, Copy, PartialEq, Eq, Debug)]
pub enum Test {
    Label(u8),
    Any,
}

/// `/`, a label that fits the test; or `//`, any labels and then one that fits.
#[derive(Clone, Copy, PartialEq, Eq, Debug)]
pub struct Step {
    pub descend: bool,
    pub test: Test,
}

/// 1 to 15 steps.
#[derive(Clone, Copy)]
pub struct Path {
    steps: ArrayList<Step, MAX_STEPS>,
    ghost some: { 1 ≤ length (items steps) },
}
