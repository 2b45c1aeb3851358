//! The minimal table.
ghost use Rattle.automata.specs.Minimising.{Minimised, OnlyMinimised};
ghost use Rattle.base.specs.Tables.{automaton};

use crate::differing::Differing;
use crate::draft::Draft;
use crate::predecessors::Predecessors;
use base::table::Table;

/// The one minimal table that accepts the same lists and whose states are numbered as they are first met: the start is 0, and
/// the others follow, going through the states by number and each one's labels by number.
pub fn minimise(table: &Table) -> Table
    ensures minimised { Minimised (automaton table.now) (automaton result) }
    ensures only { OnlyMinimised (automaton table.now) (automaton result) }
{
    let before = Predecessors::of(table);
    let differ = Differing::of(&before);
    let mut draft = Draft::begun(table.start());
    // Writing a row can add numbers, so their range is not known before.
    let mut number = 0;
    while number < draft.count() {
        draft.write_row(&differ, number);
        number += 1;
    }
    match Table::new(table.labels(), draft.count(), 0, draft.rows(table)) {
        Ok(minimal) => minimal,
        Err(_) => unreachable!(),
    }
}
