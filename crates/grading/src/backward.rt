//! Where a selector without a stack goes back to as an element closes.
ghost use Rattle.std.specs.Prelude.{◌≡◌, ℕ, ◌<◌};
ghost use Rattle.automata.specs.Holding.{Before as BeforeInternal};
ghost use Rattle.automata.specs.Lowest.{Lowest};
ghost use Rattle.automata.specs.Noting.{Before as BeforeInside};
ghost use Rattle.automata.specs.States.{Apart};
ghost use Rattle.base.specs.Tables.{automaton};
ghost use Rattle.grading.specs.Backward.{back, Homeward, Filled, Homed, Returns, Retraces};
ghost use Rattle.grading.specs.StateSets.{Gathers};

use crate::facts::Facts;
use crate::reading::step;
use crate::states::StateSet;
use crate::tabulate::tabulate;
use base::table::Table;

/// For each state and label the state to go back to.
#[derive(Clone, Copy)]
pub struct Backward {
    targets: [[u8; 16]; 32],
}

impl Backward {
    pub(crate) fn get(&self, state: u8, label: u8) -> u8
        requires { (state < 32) × (label < 16) }
        ensures { result ≡ back self.now state label }
    {
        self.targets[state as usize][label as usize]
    }
}

// The lowest state of `home` that the label leads to a state of `home` outside `apart`; the state itself where there is none.
fn lowest_before(table: &Table, home: StateSet, apart: StateSet, label: u8, state: u8) -> u8
    requires { (label < (automaton table.now).labels) × (Gathers (Apart (automaton table.now) state) (automaton table.now).states apart) }
    ensures { Lowest (Homeward (automaton table.now) home state label) (automaton table.now).states state result }
{
    (0..table.states())
        .find(|&before| {
            let target = step(table, before, label);
            home.has(before) && home.has(target) && !apart.has(target)
        })
        .unwrap_or(state)
}

impl Facts<'_> {
    // Where to go back to inside `home` from the state, for each label.
    fn back_from(&self, home: StateSet, state: u8) -> [u8; 16]
        requires { state < (automaton self.now.table.now).states }
        ensures { let A = automaton self.now.table.now in Filled A home state A.labels result }
    {
        let apart = self.apart(state);
        tabulate(
            self.table.labels(),
            0,
            |label| lowest_before(self.table, home, apart, label, state),
        )
    }

    // Where to go back to from each state inside its home.
    fn back_to<F: Fn(u8) -> StateSet>(&self, home: F) -> Backward
        requires { (state : ℕ) → state < (automaton self.now.table.now).states → F.pre home state }
        ensures { Returns (automaton self.now.table.now) (F.post home) result }
    {
        let targets = tabulate(
            self.table.states(),
            [0; 16],
            |state: u8| -> [u8; 16]
                requires { state < (automaton self.now.table.now).states × F.pre home state }
                ensures { Homed (automaton self.entry.now.table.now) (F.post home) state result }
            { self.back_from(home(state), state) },
        );
        Backward { targets }
    }

    /// Where to go back to among the internal states.
    pub(crate) fn back_to_internal(&self) -> Backward
        ensures { let A = automaton self.now.table.now in Retraces A (BeforeInternal A) result }
    {
        let internal = self.internal();
        self.back_to(|_| internal)
    }

    /// Where to go back to inside the component of each state.
    pub(crate) fn back_inside(&self) -> Backward
        ensures { let A = automaton self.now.table.now in Retraces A (BeforeInside A) result }
    {
        self.back_to(|state| self.component(state))
    }
}
