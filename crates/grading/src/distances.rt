//! How many labels lead each pair of states to a wanted pair.
ghost use Rattle.std.specs.Prelude.{◌≡◌, ℕ, ◌<◌, ◌≤◌, [], Decides, slice_index_or};
ghost use Rattle.base.specs.Tables.{automaton};
ghost use Rattle.grading.specs.Measuring.{distance, distance_after, Marks, Near, Tries, Round, Measures};
ghost use Rattle.grading.specs.StateSets.{In};

use crate::products::Seeds;
use crate::state_pair::StatePair;
use crate::states::StateSet;
use crate::tabulate::tabulate;
use base::table::Table;

// The distance of a pair that no labels lead to a wanted one; no `Option`, whose order has `None` below each distance.
const NONE: u16 = 65_535;

/// For each pair of states the least number of labels that lead both to a wanted pair, or `NONE`; and the most of these numbers.
#[derive(Clone, Copy)]
pub struct Distances {
    steps: [[u16; 32]; 32],
    most: u16,
}

impl Distances {
    /// Measures in rounds: each gives the next distance to the pairs without one that a label leads to a pair at the last.
    pub fn of<S: Seeds>(table: &Table, seeds: &S) -> Distances
        ensures { Measures (automaton table.now) (S.wanted seeds.now) result }
    {
        let mut all = Distances {
            steps: seeded(table.states(), seeds),
            most: 0,
        };
        // A round can raise the most, so the range of rounds is not known before.
        let mut steps = 0;
        while steps <= all.most {
            all.measure_all(table, steps);
            steps += 1;
        }
        all
    }

    /// The distance of the pair, or `NONE`.
    pub fn get(&self, pair: StatePair) -> u16
        ensures { result ≡ distance self.now pair.entry.first pair.entry.second }
    {
        self.steps[pair.first as usize][pair.second as usize]
    }

    /// The distance of the pair that the label leads both states to.
    pub fn after(&self, pair: StatePair, label: u8) -> u16
        requires { label < (automaton pair.table.now).labels }
        ensures { result ≡ distance_after (automaton pair.entry.table.now) self.now pair.entry.first pair.entry.second label }
    {
        self.get(pair.step(label))
    }

    // Whether some label leads both states to a pair at this distance.
    fn is_near(&self, pair: StatePair, steps: u16) -> bool
        ensures { Decides result (Near (automaton pair.entry.table.now) steps self.now pair.entry.first pair.entry.second) }
    {
        (0..pair.table.labels()).any(|label| self.after(pair, label) == steps)
    }

    // That the steps are below 1,024 is asked of each, as a type for it would hold one number and be opened at each use.
    // Gives the pair the next distance, where it has none and a label leads it to a pair at this one.
    fn measure(&mut self, pair: StatePair, steps: u16)
        requires { steps < 1024 }
        ensures { Tries (automaton pair.entry.table.now) steps self.old pair.entry.first pair.entry.second self.new }
    {
        if self.get(pair) == NONE && self.is_near(pair, steps) {
            self.steps[pair.first as usize][pair.second as usize] = steps + 1;
            self.most = steps + 1;
        }
    }

    // The table is passed, since each call that writes the distances would have to promise that they keep it.
    // Measures each pair of one first state so.
    fn measure_row(&mut self, table: &Table, first: u8, steps: u16)
        requires { (first < (automaton table.now).states) × (steps < 1024) }
        ensures { Round (automaton table.now) steps (λ p _. p ≡ first) self.old self.new }
    {
        for second in 0..table.states() {
            let pair = StatePair {
                table,
                first,
                second,
            };
            self.measure(pair, steps);
        }
    }

    // Measures each pair of the table's states so: a round.
    fn measure_all(&mut self, table: &Table, steps: u16)
        requires { steps < 1024 }
        ensures { Round (automaton table.now) steps (λ p _. p < (automaton table.now).states) self.old self.new }
    {
        for first in 0..table.states() {
            self.measure_row(table, first, steps);
        }
    }
}

// The distances of the wanted pairs whose first state is below the count.
fn seeded<S: Seeds>(states: u8, seeds: &S) -> [[u16; 32]; 32]
    requires { states ≤ 32 }
    ensures { (p : ℕ) → p < states → Marks (S.wanted seeds.now p) (slice_index_or result p []) }
{
    tabulate(
        states,
        [NONE; 32],
        |first: u8| -> [u16; 32]
            requires { first < 32 }
            ensures { Marks (S.wanted seeds.entry.now first) result }
        { row_of(seeds.row(first)) },
    )
}

// 0 for each state of the set, and `NONE` for the others.
fn row_of(wanted: StateSet) -> [u16; 32]
    ensures { Marks (λ q. In q wanted) result }
{
    tabulate(32, NONE, |second| if wanted.has(second) { 0 } else { NONE })
}
