//! The stackless selector: runs a stackless table with a depth and a few notes in place of a stack.
ghost use Rattle.std.specs.Prelude.{◌+◌, ◌<◌, ◌≤◌, length};
ghost use Rattle.automata.specs.Chains.{Chain};
ghost use Rattle.automata.specs.Components.{Components};
ghost use Rattle.automata.specs.Noting.{Serves, Before};
ghost use Rattle.base.specs.Tables.{automaton};
ghost use Rattle.grading.specs.Backward.{Retraces};
ghost use Rattle.grading.specs.Held.{held};
ghost use Rattle.grading.specs.Numbered.{Numbered};

use crate::backward::Backward;
use crate::facts::Facts;
use crate::minimise::minimise;
use crate::notes::{Note, Notes};
use crate::reading::{says_yes, step};
use base::selector::{MAX_LEVELS, Selector};
use base::table::Table;
use text::refusal::Refusal;

// A ghost field must be a proposition, so what holds in several ways is truncated.
/// A state of a stackless table, the depth, and a note for each component that was left.
#[derive(Drop)]
pub struct StacklessSelector {
    table: Table,
    backward: Backward,
    component: [u8; 32],
    needed: u8,
    state: u8,
    depth: u16,
    notes: Notes,
    ghost serves: { ∥ Serves (automaton table) ∥₁ },
    ghost retraces: { Retraces (automaton table) (Before (automaton table)) backward },
    ghost numbered: { ∥ Numbered (automaton table) component ∥₁ },
    ghost counted: { ∥ Components (automaton table) (needed + 1) ∥₁ },
    ghost placed: { state < (automaton table).states },
    ghost chained: { ∥ Chain (automaton table) (held notes) state ∥₁ },
    ghost bounded: { length (held notes) ≤ needed },
}

impl StacklessSelector {
    ghost use Rattle.std.specs.Prelude.{◌≡◌};
    ghost use Rattle.automata.specs.States.{Together};
    ghost use Rattle.grading.specs.Noting.{Selects};
    ghost use Rattle.grading.specs.StateSets.{Tells};

    /// Runs the minimal table of the query; refuses a query that is graded neither (14).
    pub fn new(table: &Table) -> Result<StacklessSelector, Refusal>
        ensures { Selects (automaton table.now) result }
    {
        let minimal = minimise(table);
        let facts = Facts::of(&minimal);
        if !facts.stackless() {
            return Err(Refusal::NotStackless);
        }
        Ok(StacklessSelector {
            table: minimal,
            backward: facts.back_inside(),
            component: facts.component_numbers(),
            needed: facts.components() - 1,
            state: minimal.start(),
            depth: 0,
            notes: Notes::none(),
        })
    }

    /// The most notes that it ever holds: the number of components less one.
    pub fn notes_needed(&self) -> u8
        ensures counted { ∥ Components (automaton self.now.table) (result + 1) ∥₁ }
        ensures bounds { length (held self.now.notes) ≤ result }
    {
        self.needed
    }

    /// How many notes it holds now.
    pub fn notes_held(&self) -> u8
        ensures { result ≡ length (held self.now.notes) }
    {
        self.notes.count()
    }

    // Whether the state is in another component than its own.
    fn leaves_for(&self, target: u8) -> bool
        requires { target < (automaton self.now.table).states }
        ensures { Tells result (¬ Together (automaton self.now.table) self.now.state target) (∥ Together (automaton self.now.table) self.now.state target ∥₁) }
    {
        self.component[self.state as usize] != self.component[target as usize]
    }
}

impl Selector for StacklessSelector {
    ghost use Rattle.automata.specs.Noted.{meaning as meaning_by, moves as moves_by};
    ghost use Rattle.automata.proofs.Noting.{noting_rules};
    ghost use Rattle.grading.specs.Noting.{noting};

    ghost meaning = { meaning_by noting };

    ghost moves = { moves_by noting };

    ghost rules = { noting_rules noting };

    fn label_count(&self) -> u8 {
        self.table.labels()
    }

    fn carry(&self) -> u32 {
        u32::from(MAX_LEVELS)
    }

    fn renew(&mut self) {
        self.notes.clear();
        self.state = self.table.start();
        self.depth = 0;
    }

    fn open(&mut self, label: u8) -> bool {
        if label >= self.table.labels() || self.depth == MAX_LEVELS {
            return false;
        }
        let target = step(&self.table, self.state, label);
        self.depth += 1;
        if self.leaves_for(target) {
            self.notes.push(Note {
                depth: self.depth,
                state: self.state,
            });
        }
        self.state = target;
        says_yes(&self.table, target)
    }

    fn close(&mut self, label: u8) {
        if label >= self.table.labels() || self.depth == 0 {
            return;
        }
        self.depth -= 1;
        self.state = match self.notes.recall(self.depth) {
            Some(note) => note.state,
            None => self.backward.get(self.state, label),
        };
    }
}
