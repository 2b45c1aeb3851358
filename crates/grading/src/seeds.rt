//! The pairs of states that moves are to lead to.
ghost use Rattle.std.specs.Prelude.{◌≡◌, true, false, ◌⊎◌};
ghost use Rattle.base.specs.Tables.{automaton};
ghost use Rattle.grading.specs.Preceding.{Answering};
ghost use Rattle.grading.specs.StateSets.{In};

use crate::products::Seeds;
use crate::reading::says_yes;
use crate::states::StateSet;
use base::table::Table;

/// A yes state and a no state, either way round.
#[derive(Clone, Copy)]
pub struct Unlike {
    yes: StateSet,
    no: StateSet,
}

impl Unlike {
    pub fn of(table: &Table) -> Unlike
        ensures { (Answering (automaton table.now) true result.yes) × (Answering (automaton table.now) false result.no) }
    {
        Unlike {
            yes: answering(table, true),
            no: answering(table, false),
        }
    }
}

// The states with this answer.
fn answering(table: &Table, answer: bool) -> StateSet
    ensures { Answering (automaton table.now) answer result }
{
    StateSet::gather(table.states(), |state| says_yes(table, state) == answer)
}

impl Seeds for Unlike {
    ghost wanted = { λ m p q. (In p m.yes × In q m.no) ⊎ ((¬ In p m.yes) × In q m.yes) };

    fn row(&self, first: u8) -> StateSet {
        if self.yes.has(first) {
            self.no
        } else {
            self.yes
        }
    }
}

/// One state, twice.
#[derive(Clone, Copy)]
pub struct Same;

impl Seeds for Same {
    ghost wanted = { λ _ p q. q ≡ p };

    fn row(&self, first: u8) -> StateSet {
        StateSet::only(first)
    }
}

/// Two states of the set.
#[derive(Clone, Copy)]
pub struct Within {
    pub set: StateSet,
}

impl Seeds for Within {
    ghost wanted = { λ m p q. In p m.set × In q m.set };

    fn row(&self, first: u8) -> StateSet {
        if self.set.has(first) {
            self.set
        } else {
            StateSet::none()
        }
    }
}
