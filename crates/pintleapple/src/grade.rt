//! The command `grade`.
use crate::options::Query;
use crate::query::load;
use crate::report;
use crate::stop::Stop;
use base::stack_selector::StackSelector;
use base::table::Table;
use choosing::kind::SelectorKind;
use grading::clash::clash_of;
use grading::grade::Graded;
use grading::registerless::RegisterlessSelector;
use grading::stackless::StacklessSelector;
use std::io;
use std::mem::size_of;

/// Grades the table of a query, and prints the grade, why the registerless one is denied, and what the selectors take.
pub fn grade<'a>(rt: &HostRuntime, query: Query<'a>) -> Result<(), Stop<'a>> {
    let query = load(rt, query)?;
    let graded = Graded::of(&query.table);
    report::grade(rt, &query.table, &graded)?;
    if let Some(clash) = clash_of(&graded.table) {
        report::clash(rt, &query.labels, &clash)?;
    }
    needs(rt, &query.table)?;
    Ok(())
}

// The notes and the memory that the selectors take which serve the query.
fn needs(rt: &HostRuntime, table: &Table) -> io::Result<()> {
    let stackless = StacklessSelector::new(table).ok();
    if let Some(selector) = &stackless {
        report::notes(rt, selector.notes_needed())?;
    }
    if RegisterlessSelector::new(table).is_ok() {
        let own = size_of::<RegisterlessSelector>();
        report::memory(rt, SelectorKind::Registerless, own, 0)?;
    }
    if stackless.is_some() {
        report::memory(
            rt,
            SelectorKind::Stackless,
            size_of::<StacklessSelector>(),
            0,
        )?;
    }
    let own = size_of::<StackSelector>() + size_of::<Table>();
    report::memory(rt, SelectorKind::Stack, own, 1)
}
