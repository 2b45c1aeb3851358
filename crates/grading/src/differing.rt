//! The states of a table that differ.
ghost use Rattle.std.specs.Prelude.{◌≡◌};
ghost use Rattle.automata.specs.States.{Differ};
ghost use Rattle.base.specs.Tables.{automaton};
ghost use Rattle.grading.specs.Knowing.{Agrees};

use crate::moves::Both;
use crate::pairs::Pairs;
use crate::predecessors::Predecessors;
use crate::seeds::Unlike;
use crate::spread::spread;
use base::table::Table;

// A ghost field must be a proposition, so what holds by several words is truncated.
/// The pairs of a table's states that some word tells apart.
#[derive(Clone, Copy)]
pub struct Differing<'a> {
    pub table: &'a Table,
    pub pairs: Pairs,
    ghost agrees: { ∥ Agrees (automaton table.now).states (Differ (automaton table.now)) pairs ∥₁ },
}

impl<'a> Differing<'a> {
    pub fn of(before: &Predecessors<'a>) -> Differing<'a>
        ensures { result.table.now ≡ before.now.table.now }
    {
        let table = before.table;
        let pairs = spread(table, &Both { before }, &Unlike::of(table));
        Differing { table, pairs }
    }
}
