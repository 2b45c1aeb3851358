//! Words that show why a table is not registerless.
ghost use Rattle.std.specs.Option.{MatchOption};
ghost use Rattle.automata.specs.Grades.{Registerless};
ghost use Rattle.automata.specs.Shortest.{Shortest};
ghost use Rattle.automata.specs.States.{Internal};
ghost use Rattle.base.specs.Tables.{automaton};
ghost use Rattle.grading.specs.Showing.{LeadsTo, Shows};
ghost use Rattle.grading.specs.Words.{labels_of};

use crate::facts::Facts;
use crate::seeds::{Same, Unlike, Within};
use crate::state_pair::StatePair;
use crate::states::StateSet;
use crate::walk::shortest;
use crate::word::Word;
use base::table::Table;

/// Words that lead to two states that clash, one by which these meet, and one after which they answer differently.
#[derive(Clone, Copy)]
pub struct Clash {
    pub first: Word,
    pub second: Word,
    pub meet: Word,
    pub apart: Word,
}

/// Why the table is not registerless: the lowest pair of states that clash, shown by words of one label or more, of which each
/// is the shortest, and of those the first by its labels. None where the table is registerless.
pub fn clash_of(table: &Table) -> Option<Clash>
    ensures { MatchOption result (Registerless (automaton table.now)) (Shows (automaton table.now)) }
{
    let lowest = Facts::of(table).lowest_clash()?;
    let pair = StatePair {
        table,
        first: lowest.first,
        second: lowest.second,
    };
    Some(Clash {
        first: word_to(table, pair.first),
        second: word_to(table, pair.second),
        meet: shortest(&Same, pair),
        apart: shortest(&Unlike::of(table), pair),
    })
}

// The shortest word of one label or more that leads from the start to the state, and of those the first by its labels.
fn word_to(table: &Table, state: u8) -> Word
    requires { Internal (automaton table.now) state }
    ensures { Shortest (automaton table.now).labels (LeadsTo (automaton table.now) state) (labels_of result) }
{
    let start = table.start();
    let both = StatePair {
        table,
        first: start,
        second: start,
    };
    let set = StateSet::only(state);
    shortest(&Within { set }, both)
}
