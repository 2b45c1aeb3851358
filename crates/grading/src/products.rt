//! Pairs of states: which are wanted, and from which ones labels lead to one.
ghost use Rattle.std.specs.Prelude.{◌≡◌, ℕ, ◌<◌, ◌↔◌};
ghost use Rattle.grading.specs.StateSets.{In};

use crate::states::StateSet;

/// A pair of states below 32.
#[derive(Clone, Copy)]
pub struct Pair {
    pub first: u8,
    pub second: u8,
    ghost within: { (first < 32) × (second < 32) },
}

/// Each pair of a state of the first set and one of the second.
#[derive(Clone, Copy)]
pub struct Product {
    pub firsts: StateSet,
    pub seconds: StateSet,
}

/// Pairs that are wanted.
pub trait Seeds {
    // the pair p, q is wanted
    ghost wanted: { Self → ℕ → ℕ → Type 0 };

    /// The second states of the wanted pairs with this first one.
    fn row(&self, first: u8) -> StateSet
        requires { first < 32 }
        ensures { (q : ℕ) → In q result ↔ wanted self.now first q };
}

/// Moves of pairs by labels: the pairs from which a label leads to a given one are a product.
pub trait Moves {
    // the label a leads from the pair p, q to the pair x, y: goes m a p q x y
    ghost goes: { Self → ℕ → ℕ → ℕ → ℕ → ℕ → Type 0 };

    fn before(&self, label: u8, pair: Pair) -> Product
        requires { label < 16 }
        ensures { (p q : ℕ) → (In p result.firsts × In q result.seconds) ↔ goes self.now label p q pair.first pair.second };
}
