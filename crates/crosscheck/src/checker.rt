//! Holds the library's answers to the expected ones, and shows where they differ.
use crate::answers::{Answer, Grade};
use crate::book::Terms;
use crate::document::Document;
use crate::tally::{Chosen, Tally};
use crate::wanted::Wanted;
use base::table::Table;
use paths::path::Path;
use std::fmt::Display;
use text::labels::Labels;
use text::refusal::Refusal;

// So many differences are shown in full, and the others only counted.
const MOST_SHOWN: u32 = 3;

/// A query in words, and what the library made of its text: a table, the minimal one, and the grade.
#[derive(Clone, Copy)]
pub struct Query<'a> {
    pub wanted: &'a Wanted,
    pub text: &'a str,
    pub names: &'a Labels,
    pub table: &'a Table,
    pub minimal: &'a Table,
    pub grade: Grade,
}

/// One query over one document by one selector, in the way of this name; lists have so many places.
#[derive(Clone, Copy)]
pub struct Case<'a> {
    pub query: Query<'a>,
    pub document: &'a Document,
    pub selector: Chosen,
    pub terms: Terms,
    pub places: usize,
    pub way: &'static str,
}

/// Where it prints, and what it counts.
#[derive(Drop)]
pub struct Checker {
    pub rt: HostRuntime,
    pub tally: Tally,
}

impl Checker {
    /// Nothing compared yet.
    pub fn new(rt: HostRuntime) -> Checker {
        Checker {
            rt,
            tally: Tally::default(),
        }
    }

    /// Holds an answer in a case to the expected one.
    pub fn hold(&mut self, case: Case<'_>, expected: Answer, got: Answer) -> anyhow::Result<()> {
        if self.agrees(expected, got) {
            return Ok(());
        }
        let query = case.query.text;
        let way = case.way;
        let selector = case.selector;
        let Terms {
            labels,
            carry,
            limit,
        } = case.terms;
        let rt = &self.rt;
        println!(rt;
            "difference\tquery\t{query}\tlabels\t{labels}\tselector\t{selector}\tlevels\t{carry}\tlimit\t{limit}\tway\t{way}"
        )?;
        self.show(expected, got)?;
        let rt = &self.rt;
        println!(rt; "document\n{}", case.document.lines.as_str())?;
        Ok(())
    }

    /// Holds an answer that stands outside the generated runs to the expected one.
    pub fn hold_fixed<D: Display + Drop>(
        &mut self,
        what: D,
        expected: Answer,
        got: Answer,
    ) -> anyhow::Result<()> {
        if !self.agrees(expected, got) {
            let rt = &self.rt;
            println!(rt; "difference\t{what}")?;
            self.show(expected, got)?;
        }
        Ok(())
    }

    /// What ought to have been made; none where it was refused, which is a difference.
    pub fn made<D: Display + Drop, T: Drop>(
        &mut self,
        what: D,
        made: Result<T, Refusal>,
    ) -> anyhow::Result<Option<T>> {
        self.hold_fixed(what, Answer::Made, Answer::from(&made))?;
        Ok(made.ok())
    }

    /// The table of a path.
    pub fn table_of(&mut self, names: &Labels, text: &str) -> anyhow::Result<Option<Table>> {
        let made = Path::read(names, text.as_bytes()).and_then(|path| path.table(names));
        self.made(text, made)
    }

    // Prints the answers.
    fn show(&self, expected: Answer, got: Answer) -> anyhow::Result<()> {
        let rt = &self.rt;
        println!(rt; "expected\t{expected:?}\ngot\t{got:?}")?;
        Ok(())
    }

    // Whether there is nothing to show; a difference is counted.
    fn agrees(&mut self, expected: Answer, got: Answer) -> bool {
        self.tally.count_answer(expected);
        if expected == got {
            return true;
        }
        self.tally.differences = self.tally.differences.saturating_add(1);
        self.tally.differences > MOST_SHOWN
    }
}
