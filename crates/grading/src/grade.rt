//! The grade of a table.
ghost use Rattle.std.specs.Prelude.{Some};
ghost use Rattle.automata.specs.Components.{Components};
ghost use Rattle.automata.specs.Minimising.{Minimised};
ghost use Rattle.base.specs.Tables.{automaton};
ghost use Rattle.grading.specs.Grading.{Earns, Settles, name};

use crate::facts::Facts;
use crate::minimise::minimise;
use base::table::Table;
use std::fmt;

/// Registerless: no two internal states that meet are apart. Stackless: some are, but none that meet within one component.
/// Neither: some that meet within one component are apart too.
#[derive(Clone, Copy, PartialEq, Eq, Debug)]
pub enum Grade {
    Registerless,
    Stackless,
    Neither,
}

impl fmt::Display for Grade {
    ghost output = { λ grade. Some (name grade) };

    fn fmt<W: fmt::Write>(&self, f: &mut fmt::Formatter<W>) -> fmt::Result {
        f.write_str(match self {
            Grade::Registerless => "registerless",
            Grade::Stackless => "stackless",
            Grade::Neither => "neither",
        })
    }
}

/// A minimal table, its grade, and how many components it has.
#[derive(Clone, Copy)]
pub struct Graded {
    pub table: Table,
    pub grade: Grade,
    pub components: u8,
}

impl Graded {
    /// Makes the table minimal, and grades it.
    pub fn of(table: &Table) -> Graded
        ensures minimal { Minimised (automaton table.now) (automaton result.table) }
        ensures graded { Earns (automaton result.table) result.grade }
        ensures counted { Components (automaton result.table) result.components }
        ensures settled { Settles (automaton table.now) result.grade }
    {
        let minimal = minimise(table);
        let facts = Facts::of(&minimal);
        Graded {
            table: minimal,
            grade: grade_by(&facts),
            components: facts.components(),
        }
    }
}

// The grade of a minimal table, by its facts.
fn grade_by(facts: &Facts) -> Grade
    ensures { Earns (automaton facts.now.table.now) result }
{
    if facts.lowest_clash().is_none() {
        return Grade::Registerless;
    }
    if facts.stackless() {
        return Grade::Stackless;
    }
    Grade::Neither
}
