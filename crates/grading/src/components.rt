//! The components of a table.
ghost use Rattle.std.specs.Prelude.{ℕ, ◌<◌, Decides};
ghost use Rattle.automata.specs.Components.{Lowest, Components, Numbers};
ghost use Rattle.base.specs.Tables.{automaton};
ghost use Rattle.grading.specs.Numbered.{Numbered};

use crate::facts::Facts;
use crate::tabulate::tabulate;

impl Facts<'_> {
    // The lowest state of the state's component.
    fn component_number(&self, state: u8) -> u8
        requires { state < (automaton self.now.table.now).states }
        ensures { Numbers (automaton self.now.table.now) state result }
    {
        match self.component(state).next() {
            Some(lowest) => lowest,
            None => unreachable!(),
        }
    }

    // Whether the state is the lowest of its component.
    fn is_lowest(&self, state: u8) -> bool
        requires { state < (automaton self.now.table.now).states }
        ensures { Decides result (Lowest (automaton self.now.table.now) state) }
    {
        self.component_number(state) == state
    }

    /// How many components there are.
    pub fn components(&self) -> u8
        ensures { Components (automaton self.now.table.now) result }
    {
        (0..self.table.states())
            .filter(
                |state: &u8| -> bool
                    requires { state.now < (automaton self.now.table.now).states }
                    ensures { Decides result (Lowest (automaton self.entry.now.table.now) state.now) }
                { self.is_lowest(*state) },
            )
            .count() as u8
    }

    /// For each state the number of its component: the lowest state in it.
    pub fn component_numbers(&self) -> [u8; 32]
        ensures { Numbered (automaton self.now.table.now) result }
    {
        tabulate(self.table.states(), 0, |state| self.component_number(state))
    }
}
