//! Whole runs of a selector.
ghost use Rattle.base.specs.Tables.{automaton};
ghost use Rattle.choosing.specs.Readings.{Runs};

use base::run::{Drained, Totals};
use base::selector::Selector;
use base::source::TagSource;
use base::table::Table;
use grading::begun::{Begun, begin};

/// What a run came to: its one drain, and its end.
#[derive(Clone, Copy)]
pub struct Reading {
    pub drained: Drained,
    pub totals: Totals,
}

impl Reading {
    /// A whole run over a query's table: begun, drained of the source once, and ended.
    pub fn of<S: Selector + Drop, T: TagSource + Drop>(
        table: &Table,
        selector: S,
        limit: u32,
        mut source: T,
        picks: &mut [u32],
    ) -> Reading
        ensures { Runs S.meaning S.moves selector limit (T.holds source) picks.old picks.new result }
    {
        let Begun { graded: _, mut run } = begin(table, selector, limit);
        let drained = run.drain(&mut source, picks);
        let (totals, selector) = run.end();
        drop(selector);
        Reading { drained, totals }
    }
}
