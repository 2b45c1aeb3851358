//! A worklist of pairs of states.
ghost use Rattle.std.specs.Prelude.{◌+◌, ◌≤◌, length};
ghost use Rattle.base.specs.Stacks.{used};
ghost use Rattle.grading.specs.Pairing.{blank};

use crate::pairs::Pairs;
use crate::products::{Moves, Pair, Product, Seeds};
use crate::states::StateSet;
use base::stack::Stack;

// No `ArrayList`: the one store over lent memory serves every kind of entry.
/// The pairs found so far, and those among them that wait for their predecessors to be visited.
#[derive(Drop)]
pub struct Worklist<'a> {
    pub found: Pairs,
    pub waiting: Stack<'a, Pair>,
    ghost room: { blank found + used waiting ≤ length waiting.places.now },
}

impl Worklist<'_> {
    ghost use Rattle.std.specs.Prelude.{◌≡◌, ℕ, ◌<◌};
    ghost use Rattle.grading.specs.StateSets.{In};
    ghost use Rattle.grading.specs.Worklists.{Visits, Among, Below};

    // Adds a pair to those found, unless it is one, and has it wait.
    fn visit(&mut self, pair: Pair)
        ensures { Visits (λ p q. (p ≡ pair.first) × (q ≡ pair.second)) self.old self.new }
    {
        if !self.found.has(pair.first, pair.second) {
            self.found.add(pair.first, pair.second);
            let _ = self.waiting.push(pair);
        }
    }

    // Visits the pairs of one first state with each of the second ones.
    fn visit_row(&mut self, first: u8, seconds: StateSet)
        requires { first < 32 }
        ensures { Visits (λ p q. (p ≡ first) × In q seconds) self.old self.new }
    {
        for second in seconds {
            self.visit(Pair { first, second });
        }
    }

    // Visits the pairs of a product.
    fn visit_product(&mut self, product: Product)
        ensures { Visits (λ p q. In p product.firsts × In q product.seconds) self.old self.new }
    {
        for first in product.firsts {
            self.visit_row(first, product.seconds);
        }
    }

    /// Visits the wanted pairs whose first state is below the count.
    pub fn visit_seeds<S: Seeds>(&mut self, states: u8, seeds: &S)
        requires { states ≤ 32 }
        ensures { Visits (Below states (S.wanted seeds.now)) self.old self.new }
    {
        for first in 0..states {
            self.visit_row(first, seeds.row(first));
        }
    }

    /// Visits the pairs from which a label below the count leads to the pair.
    pub fn visit_before<M: Moves>(&mut self, labels: u8, moves: &M, pair: Pair)
        requires { labels ≤ 16 }
        ensures { Visits (Among labels (λ a p q. M.goes moves.now a p q pair.first pair.second)) self.old self.new }
    {
        for label in 0..labels {
            self.visit_product(moves.before(label, pair));
        }
    }
}
