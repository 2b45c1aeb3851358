//! Theorems on paths that are written out.
ghost use Rattle.paths.specs.Samples.{Samples};

/// How many states the tables of some paths have.
pub fn samples()
    ensures { Samples }
{}
