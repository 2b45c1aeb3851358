//! One table of examples: what the definitions say of paths and tables that are written out.
ghost use Rattle.samples.specs.Samples.{Samples};

/// The states and grades of some paths and tables.
pub fn samples()
    ensures { Samples }
{}
