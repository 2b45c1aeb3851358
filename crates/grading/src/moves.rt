//! The moves of pairs of states.
ghost use Rattle.std.specs.Prelude.{◌≡◌};
ghost use Rattle.grading.specs.Pairing.{Has};
ghost use Rattle.grading.specs.Preceding.{before};
ghost use Rattle.grading.specs.StateSets.{In};

use crate::pairs::Pairs;
use crate::predecessors::Predecessors;
use crate::products::{Moves, Pair, Product};
use crate::states::StateSet;

/// Both states take the label.
#[derive(Drop)]
pub struct Both<'a> {
    pub before: &'a Predecessors<'a>,
}

impl Moves for Both<'_> {
    ghost goes = { λ m a p q x y. In p (before m.before.now.entering a x) × In q (before m.before.now.entering a y) };

    fn before(&self, label: u8, pair: Pair) -> Product {
        Product {
            firsts: self.before.get(label, pair.first),
            seconds: self.before.get(label, pair.second),
        }
    }
}

/// The first state takes the label, and the second stays.
#[derive(Drop)]
pub struct First<'a> {
    pub before: &'a Predecessors<'a>,
}

impl Moves for First<'_> {
    ghost goes = { λ m a p q x y. In p (before m.before.now.entering a x) × (q ≡ y) };

    fn before(&self, label: u8, pair: Pair) -> Product {
        Product {
            firsts: self.before.get(label, pair.first),
            seconds: StateSet::only(pair.second),
        }
    }
}

/// Both states take the label, and the first is reached back.
#[derive(Drop)]
pub struct Inside<'a> {
    pub before: &'a Predecessors<'a>,
    pub reach: &'a Pairs,
}

impl Moves for Inside<'_> {
    ghost goes = { λ m a p q x y. (In p (before m.before.now.entering a x) × Has m.reach.now x p) × In q (before m.before.now.entering a y) };

    fn before(&self, label: u8, pair: Pair) -> Product {
        let reached = self.reach.row(pair.first);
        Product {
            firsts: self.before.get(label, pair.first).intersection(reached),
            seconds: self.before.get(label, pair.second),
        }
    }
}
