//! The call that begins a run of a query, with the main promise for its contract.
ghost use Rattle.base.specs.Tables.{automaton};
ghost use Rattle.grading.specs.Promise.{MainPromise};

use crate::grade::Graded;
use base::run::Run;
use base::selector::Selector;
use base::table::Table;

/// A query's grade, and a run over it.
pub struct Begun<S> {
    pub graded: Graded,
    pub run: Run<S>,
}

/// Grades the table of a query, and begins a run of the selector that was chosen for it.
pub fn begin<S: Selector>(table: &Table, selector: S, limit: u32) -> Begun<S>
    ensures { MainPromise S.meaning S.moves selector limit (automaton table.now) result.graded result.run }
{
    Begun {
        graded: Graded::of(table),
        run: Run::begin(selector, limit),
    }
}
