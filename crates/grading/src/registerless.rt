//! The registerless selector: runs a registerless table, with no memory but its state.
ghost use Rattle.std.specs.Prelude.{◌<◌};
ghost use Rattle.automata.specs.Holding.{Serves, Before};
ghost use Rattle.base.specs.Tables.{automaton};
ghost use Rattle.grading.specs.Backward.{Retraces};

use crate::backward::Backward;
use crate::facts::Facts;
use crate::minimise::minimise;
use crate::reading::{says_yes, step};
use base::selector::{MAX_LEVELS, Selector};
use base::table::Table;
use text::refusal::Refusal;

/// One state of a registerless table, and where to go back to from each.
#[derive(Clone, Copy)]
pub struct RegisterlessSelector {
    table: Table,
    backward: Backward,
    state: u8,
    ghost inside: { state < (automaton table).states },
    ghost serves: { ∥ Serves (automaton table) ∥₁ },
    ghost retraces: { Retraces (automaton table) (Before (automaton table)) backward },
}

impl RegisterlessSelector {
    ghost use Rattle.grading.specs.Holding.{Selects};

    /// Runs the minimal table of the query from its start; refuses a table that is not registerless (13).
    pub fn new(table: &Table) -> Result<RegisterlessSelector, Refusal>
        ensures { Selects (automaton table.now) result }
    {
        let minimal = minimise(table);
        let facts = Facts::of(&minimal);
        if facts.lowest_clash().is_some() {
            return Err(Refusal::NotRegisterless);
        }
        Ok(RegisterlessSelector {
            table: minimal,
            backward: facts.back_to_internal(),
            state: minimal.start(),
        })
    }
}

impl Selector for RegisterlessSelector {
    ghost use Rattle.automata.specs.Holding.{meaning as meaning_by, moves as moves_by};
    ghost use Rattle.automata.proofs.Holding.{holding_rules};
    ghost use Rattle.grading.specs.Holding.{holding};

    ghost meaning = { meaning_by holding };

    ghost moves = { moves_by holding };

    ghost rules = { holding_rules holding };

    fn label_count(&self) -> u8 {
        self.table.labels()
    }

    fn carry(&self) -> u32 {
        u32::from(MAX_LEVELS)
    }

    fn renew(&mut self) {
        self.state = self.table.start();
    }

    fn open(&mut self, label: u8) -> bool {
        if label >= self.table.labels() {
            return false;
        }
        self.state = step(&self.table, self.state, label);
        says_yes(&self.table, self.state)
    }

    fn close(&mut self, label: u8) {
        if label < self.table.labels() {
            self.state = self.backward.get(self.state, label);
        }
    }
}
