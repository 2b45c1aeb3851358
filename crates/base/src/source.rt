//! The source interface: what gives the tags of a document one by one.
ghost use Rattle.base.specs.Sources.{Source, Gives};

use automata::tag::Tag;
use text::refusal::Refusal;

/// A faulty line, counted from 1, and what it is refused for.
#[derive(Clone, Copy, PartialEq, Eq, Debug)]
pub struct Fault {
    pub refusal: Refusal,
    pub line: u32,
}

/// The tags that wait, in order, and then an end: clean, or at a faulty line.
pub trait TagSource {
    ghost holds: { Self → Source };

    /// Takes the first waiting tag out and gives it; with none waiting, none at a clean end or the fault, the same each time.
    fn next(&mut self) -> Result<Option<Tag>, Fault>
        ensures { Gives (holds self.old) result (holds self.new) };
}
