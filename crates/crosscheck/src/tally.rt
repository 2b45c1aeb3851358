//! What was compared, counted.
use crate::answers::{Answer, Grade};
use std::fmt;

/// Counts of documents and tags, queries by grade, runs by selector, refusals by number, picks and differences.
#[derive(Drop, Default)]
pub struct Tally {
    documents: u32,
    tags: usize,
    queries: [u32; 3],
    runs: [u32; 3],
    refusals: [u32; 23],
    picks: u32,
    pub differences: u32,
}

// Not the library's, with which the evaluator shares no code.
/// Which selector is run.
#[derive(Clone, Copy, PartialEq, Eq)]
pub enum Chosen {
    Stack,
    Registerless,
    Stackless,
}

// What it is called.
impl fmt::Display for Chosen {
    fn fmt<W: fmt::Write>(&self, f: &mut fmt::Formatter<W>) -> fmt::Result {
        f.write_str(match self {
            Chosen::Stack => "stack",
            Chosen::Registerless => "registerless",
            Chosen::Stackless => "stackless",
        })
    }
}

impl Tally {
    /// Counts a document with so many tags.
    pub fn count_document(&mut self, tags: usize) {
        self.documents = self.documents.saturating_add(1);
        self.tags = self.tags.saturating_add(tags);
    }

    /// Counts a query of a grade.
    pub fn count_query(&mut self, grade: Grade) {
        count(&mut self.queries, grade as usize);
    }

    /// Counts a run of a selector.
    pub fn count_run(&mut self, selector: Chosen) {
        count(&mut self.runs, selector as usize);
    }

    /// Counts what an expected answer tells.
    pub fn count_answer(&mut self, answer: Answer) {
        if let Some(number) = answer.refusal() {
            count(&mut self.refusals, usize::from(number));
        }
        if let Answer::Listed { .. } | Answer::Opened { picked: true, .. } = answer {
            self.picks = self.picks.saturating_add(1);
        }
    }

    /// Prints the counts.
    pub fn print(&self, rt: &HostRuntime) -> anyhow::Result<()> {
        let documents = self.documents;
        let tags = self.tags;
        println!(rt; "documents\t{documents}\ttags\t{tags}")?;
        let [registerless, stackless, neither] = self.queries;
        println!(rt;
            "queries\tregisterless\t{registerless}\tstackless\t{stackless}\tneither\t{neither}"
        )?;
        let [stack, registerless, stackless] = self.runs;
        println!(rt; "runs\tstack\t{stack}\tregisterless\t{registerless}\tstackless\t{stackless}")?;
        for (number, count) in self.refusals.iter().enumerate().skip(13) {
            println!(rt; "refused\t{number}\t{count}")?;
        }
        println!(rt; "picks\t{}", self.picks)?;
        println!(rt; "differences\t{}", self.differences)?;
        Ok(())
    }
}

// Counts one more at a place.
fn count(counts: &mut [u32], at: usize) {
    if let Some(count) = counts.get_mut(at) {
        *count = count.saturating_add(1);
    }
}
