//! The selector interface: what picks elements while a document is read.
ghost use Rattle.std.specs.Prelude.{◌≡◌};
ghost use Rattle.automata.specs.Meaning.{Meaning, Moves, Rules};

/// The most levels of open elements that any selector follows.
pub const MAX_LEVELS: u16 = 65_535;

/// Follows the labels of the open elements, and answers at each opening whether it wants the element's path.
pub trait Selector {
    ghost meaning: { Meaning Self };

    ghost moves: { Moves Self };

    // what the moves do to the meaning: proved once for each selector, and all that a run knows of it
    ghost rules: { Rules meaning moves };

    fn label_count(&self) -> u8
        ensures { result ≡ meaning.labels self.now };

    /// How many levels of open elements it can follow.
    fn carry(&self) -> u32
        ensures { result ≡ meaning.carry self.now };

    /// Back to the empty path.
    fn renew(&mut self)
        ensures { moves.renewed self.old self.new };

    fn open(&mut self, label: u8) -> bool
        ensures { moves.opened self.old label self.new result };

    fn close(&mut self, label: u8)
        ensures { moves.closed self.old label self.new };
}
