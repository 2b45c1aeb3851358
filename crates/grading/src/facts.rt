//! What is known of the states of a table.
ghost use Rattle.std.specs.Prelude.{◌≡◌};
ghost use Rattle.base.specs.Tables.{automaton};
ghost use Rattle.grading.specs.Knowing.{Known};

use crate::differing::Differing;
use crate::moves::{Both, First, Inside};
use crate::pairs::Pairs;
use crate::predecessors::Predecessors;
use crate::seeds::Same;
use crate::spread::spread;
use base::table::Table;

// A ghost field must be a proposition, so what holds by several words is truncated. That a state is one of the table's is
// asked of each call: one that carries its table, as in `StatePair`, would be made from a byte at each loop and look-up.
/// The pairs of a table's states that differ, that meet, of which the first reaches the second, and that meet in the component
/// of the first.
#[derive(Clone, Copy)]
pub struct Facts<'a> {
    pub table: &'a Table,
    pub differ: Pairs,
    pub meet: Pairs,
    pub reach: Pairs,
    pub inside: Pairs,
    ghost known: { ∥ Known (automaton table.now) differ meet reach inside ∥₁ },
}

impl<'a> Facts<'a> {
    pub fn of(table: &'a Table) -> Facts<'a>
        ensures { result.table.now ≡ table.now }
    {
        let before = &Predecessors::of(table);
        let reach = spread(table, &First { before }, &Same);
        let reached = &reach;
        let inside = Inside {
            before,
            reach: reached,
        };
        Facts {
            table,
            differ: Differing::of(before).pairs,
            meet: spread(table, &Both { before }, &Same),
            reach,
            inside: spread(table, &inside, &Same),
        }
    }
}
