//! The pairs of states from which moves lead to a wanted pair.
ghost use Rattle.base.specs.Tables.{automaton};
ghost use Rattle.grading.specs.Spreading.{Spreads};
ghost use Rattle.grading.specs.Worklists.{Below};

use crate::pairs::Pairs;
use crate::products::{Moves, Pair, Seeds};
use crate::worklist::Worklist;
use base::stack::Stack;
use base::table::Table;

/// Finds the pairs from which moves by the table's labels lead to a wanted pair of its states. Going back from the wanted
/// pairs, it visits the predecessors of each pair that it finds, and those once.
pub fn spread<M: Moves, S: Seeds>(table: &Table, moves: &M, seeds: &S) -> Pairs
    ensures { Spreads (automaton table.now).labels (M.goes moves.now) (Below (automaton table.now).states (S.wanted seeds.now)) result }
{
    let mut places = [Pair {
        first: 0,
        second: 0,
    }; 1024];
    let mut list = Worklist {
        found: Pairs::none(),
        waiting: Stack::new(&mut places),
    };
    list.visit_seeds(table.states(), seeds);
    while let Some(pair) = list.waiting.pop() {
        list.visit_before(table.labels(), moves, pair);
    }
    list.found
}
