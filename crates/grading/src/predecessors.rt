//! The states that each label leads to a state.
ghost use Rattle.std.specs.Prelude.{◌≡◌, ◌+◌, ◌*◌, ◌<◌};
ghost use Rattle.base.specs.Tables.{automaton};
ghost use Rattle.grading.specs.Preceding.{before, Indexed, Indexes};

use crate::pairs::Pairs;
use crate::reading::step;
use crate::states::StateSet;
use base::table::Table;

/// For each label of a table the pairs of a state and one that the label leads to it.
#[derive(Clone, Copy)]
pub struct Predecessors<'a> {
    pub table: &'a Table,
    entering: [Pairs; 16],
    ghost indexes: { Indexes (automaton table.now) entering },
}

impl<'a> Predecessors<'a> {
    pub fn of(table: &'a Table) -> Predecessors<'a>
        ensures { result.table.now ≡ table.now }
    {
        let mut entering = [Pairs::none(); 16];
        for state in 0..table.states() {
            add(&mut entering, table, state);
        }
        Predecessors { table, entering }
    }

    /// The states that the label leads to the state.
    pub fn get(&self, label: u8, state: u8) -> StateSet
        requires { (label < 16) × (state < 32) }
        ensures { result ≡ before self.now.entering label state }
    {
        self.entering[label as usize].rows[state as usize]
    }
}

// Adds the steps from one state.
fn add(entering: &mut [Pairs; 16], table: &Table, state: u8)
    requires { (state < (automaton table.now).states) × (Indexed (automaton table.now) entering.old (16 * state)) }
    ensures { Indexed (automaton table.now) entering.new (16 * (state + 1)) }
{
    let count = table.labels() as usize;
    for (label, pairs) in entering[..count].iter_mut().enumerate() {
        pairs.add(step(table, state, label as u8), state);
    }
}
