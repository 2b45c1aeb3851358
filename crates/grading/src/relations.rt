//! How the states of a table relate, by its facts.
ghost use Rattle.std.specs.Prelude.{ℕ, ◌<◌};
ghost use Rattle.automata.specs.States.{Internal, Almost, Apart, Together};
ghost use Rattle.base.specs.Tables.{automaton};
ghost use Rattle.grading.specs.StateSets.{Gathers, Tells};

use crate::facts::Facts;
use crate::reading::step;
use crate::states::StateSet;

impl Facts<'_> {
    /// The internal states.
    pub fn internal(&self) -> StateSet
        ensures { let A = automaton self.now.table.now in Gathers (Internal A) A.states result }
    {
        let mut set = StateSet::none();
        for label in 0..self.table.labels() {
            let entered = step(self.table, self.table.start(), label);
            set = set.union(self.reach.row(entered));
        }
        set
    }

    /// The states that share a component with the state.
    pub fn component(&self, state: u8) -> StateSet
        requires { state < (automaton self.now.table.now).states }
        ensures { let A = automaton self.now.table.now in Gathers (Together A state) A.states result }
    {
        self.reach.row(state).intersection(self.reach.column(state))
    }

    /// Whether the two states are almost equivalent.
    pub fn almost(&self, first: u8, second: u8) -> bool
        requires { let A = automaton self.now.table.now in (first < A.states) × (second < A.states) }
        ensures { let A = automaton self.now.table.now in Tells result (Almost A first second) (Apart A first second) }
    {
        (0..self.table.labels()).all(|label| {
            let left = step(self.table, first, label);
            !self.differ.has(left, step(self.table, second, label))
        })
    }

    /// The states that are apart from the state.
    pub fn apart(&self, state: u8) -> StateSet
        requires { state < (automaton self.now.table.now).states }
        ensures { let A = automaton self.now.table.now in Gathers (Apart A state) A.states result }
    {
        StateSet::gather(self.table.states(), |other| !self.almost(state, other))
    }
}
