//! Sets of pairs of states.
ghost use Rattle.std.specs.Prelude.{◌≡◌, ◌<◌, Decides};
ghost use Rattle.grading.specs.Pairing.{row, Has, NoPairs, Adds};
ghost use Rattle.grading.specs.StateSets.{Gathers};

use crate::states::StateSet;

/// For each first state the set of its second ones.
#[derive(Clone, Copy)]
pub struct Pairs {
    pub rows: [StateSet; 32],
}

impl Pairs {
    pub fn none() -> Pairs
        ensures { NoPairs result }
    {
        Pairs {
            rows: [StateSet::none(); 32],
        }
    }

    /// The second states of the pairs with this first one.
    pub fn row(&self, first: u8) -> StateSet
        requires { first < 32 }
        ensures { result ≡ row self.now first }
    {
        self.rows[first as usize]
    }

    /// The first states of the pairs with this second one.
    pub fn column(&self, second: u8) -> StateSet
        requires { second < 32 }
        ensures { Gathers (λ p. Has self.now p second) 32 result }
    {
        StateSet::gather(32, |first| self.has(first, second))
    }

    pub fn has(&self, first: u8, second: u8) -> bool
        requires { (first < 32) × (second < 32) }
        ensures { Decides result (Has self.now first second) }
    {
        self.row(first).has(second)
    }

    pub fn add(&mut self, first: u8, second: u8)
        requires { (first < 32) × (second < 32) }
        ensures { Adds self.old first second self.new }
    {
        self.rows[first as usize] = self.rows[first as usize].with(second);
    }
}
