//! A table under construction, its states numbered as they are met.
ghost use Rattle.std.specs.Prelude.{◌≡◌, ℕ, ◌+◌, ◌*◌, ◌<◌, ◌≤◌, [], ◌∷◌, MatchOption};
ghost use Rattle.text.specs.Lists.{items};
ghost use Rattle.base.specs.Tables.{automaton};
ghost use Rattle.grading.specs.Drafts.{olds, count, Free, AllDiffer, Alike, Named, Drafted, RowsOf};

use crate::differing::Differing;
use crate::reading::{says_yes, step};
use crate::tabulate::tabulate;
use base::table::{Row, Table};
use text::list::ArrayList;

// Two arrays: a number is given out before its targets are known, and an `ArrayList` lends no item to be written later.
/// For each number the old state that it stands for, and its targets.
#[derive(Clone, Copy)]
pub struct Draft {
    pub old: ArrayList<u8, 32>,
    pub targets: [[u8; 16]; 32],
}

impl Draft {
    /// The start alone has a number, and no target is written.
    pub fn begun(start: u8) -> Draft
        ensures { items result.old ≡ start ∷ [] }
    {
        let mut old = ArrayList::empty(0);
        let _ = old.push(start);
        Draft {
            old,
            targets: [[0; 16]; 32],
        }
    }

    /// How many numbers there are.
    pub fn count(&self) -> u8
        ensures { result ≡ count self.now }
    {
        self.old.len() as u8
    }

    // The old state that the number stands for.
    fn state(&self, number: u8) -> u8
        requires { number < count self.now }
        ensures { result ≡ olds self.now number }
    {
        self.old.as_slice()[number as usize]
    }

    // The number of an old state like this one.
    fn find(&self, differ: &Differing, state: u8) -> Option<u8>
        requires { (state < 32) × (((j : ℕ) → j < count self.now → olds self.now j < 32)) }
        ensures { MatchOption result (AllDiffer differ.now.pairs self.now state) (Alike differ.now.pairs self.now state) }
    {
        (0..self.count()).find(|&number| !differ.pairs.has(self.state(number), state))
    }

    // The number of the old state, or of one like it; a new number where there is none.
    fn name(&mut self, differ: &Differing, state: u8) -> u8
        requires { (state < 32) × (Free differ.now.pairs self.now state) }
        ensures { Named differ.now.pairs self.entry.now state result self.exit.now }
    {
        if let Some(number) = self.find(differ, state) {
            return number;
        }
        let last = self.count();
        let _ = self.old.push(state);
        last
    }

    /// Writes the targets of one number.
    pub fn write_row(&mut self, differ: &Differing, number: u8)
        requires { (number < count self.now) × (Drafted (automaton differ.now.table.now) self.now (16 * number)) }
        ensures { Drafted (automaton differ.now.table.now) self.exit.now (16 * (number + 1)) }
    {
        let state = self.state(number);
        let count = differ.table.labels() as usize;
        let mut row = [0; 16];
        for (label, target) in row[..count].iter_mut().enumerate() {
            *target = self.name(differ, step(differ.table, state, label as u8));
        }
        self.targets[number as usize] = row;
    }

    /// The rows of the numbers: their targets, and yes or no as their old states have it.
    pub fn rows(&self, table: &Table) -> [Row; 32]
        requires { (k : ℕ) → k < count self.now → olds self.now k < (automaton table.now).states }
        ensures { RowsOf (automaton table.now) self.now result }
    {
        let blank = Row {
            targets: [0; 16],
            accepts: false,
        };
        tabulate(
            self.count(),
            blank,
            |number| Row {
                targets: self.targets[number as usize],
                accepts: says_yes(table, self.state(number)),
            },
        )
    }
}
