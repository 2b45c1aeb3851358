//! Shortest words that lead pairs of states to wanted ones.
ghost use Rattle.std.specs.Prelude.{◌<◌};
ghost use Rattle.automata.specs.Shortest.{Shortest};
ghost use Rattle.base.specs.Tables.{automaton};
ghost use Rattle.grading.specs.Walks.{Brings, Brought, Best};
ghost use Rattle.grading.specs.Words.{labels_of};

use crate::distances::Distances;
use crate::products::Seeds;
use crate::state_pair::StatePair;
use crate::word::Word;

/// The shortest word of one label or more that leads both states to a wanted pair, and of those the first by its labels. Each
/// label is the lowest of those that leave the least distance.
pub fn shortest<S: Seeds>(seeds: &S, mut pair: StatePair) -> Word
    requires { Brought (automaton pair.table.now) (S.wanted seeds.now) pair.first pair.second }
    ensures { let A = automaton pair.entry.table.now in Shortest A.labels (Brings A (S.wanted seeds.now) pair.entry.first pair.entry.second) (labels_of result) }
{
    let distances = Distances::of(pair.table, seeds);
    let mut word = Word::empty();
    loop {
        let label = distances.best_label(pair);
        word.push(label);
        pair = pair.step(label);
        if distances.get(pair) == 0 {
            return word;
        }
    }
}

impl Distances {
    // The lowest of the labels that lead both states to a pair at the least distance.
    fn best_label(&self, pair: StatePair) -> u8
        ensures { Best (automaton pair.entry.table.now) self.now pair.entry.first pair.entry.second result }
    {
        // By a loop: tried `min_by_key`, and the proof did not close.
        let mut best = 0;
        for label in 1..pair.table.labels() {
            if self.after(pair, label) < self.after(pair, best) {
                best = label;
            }
        }
        best
    }
}
