//! The ways to use a run of the library.
use crate::compare::Trial;
use crate::document::{Reading, Tag};
use crate::writing::packed;
use base::lines::LineSource;
use base::run::Run;
use base::selector::Selector;

/// What is done with a run of a trial.
pub trait Way {
    /// What it is called where a difference is shown.
    const NAME: &'static str;

    /// Uses the run, and holds each call of it to the book.
    fn go<S: Selector>(self, trial: &mut Trial<'_>, run: &mut Run<S>) -> anyhow::Result<()>;
}

/// Drains the tag lines.
#[derive(Clone, Copy)]
pub struct Lines;

/// Drains the packed bytes at once.
#[derive(Clone, Copy)]
pub struct Bytes;

/// Drains the packed bytes in two halves.
#[derive(Clone, Copy)]
pub struct Halves;

/// Offers the tags by single calls, and goes on after refusals.
#[derive(Clone, Copy)]
pub struct Calls;

/// Drains the packed bytes below an open root until there are too many openings, and once more.
#[derive(Clone, Copy)]
pub struct Million;

impl Way for Lines {
    const NAME: &'static str = "lines";

    fn go<S: Selector>(self, trial: &mut Trial<'_>, run: &mut Run<S>) -> anyhow::Result<()> {
        let document = trial.case.document;
        let mut source = LineSource::new(trial.case.query.names, document.lines.as_bytes())?;
        trial.drain(run, &mut source, document.as_lines())
    }
}

impl Way for Bytes {
    const NAME: &'static str = "bytes";

    fn go<S: Selector>(self, trial: &mut Trial<'_>, run: &mut Run<S>) -> anyhow::Result<()> {
        let document = trial.case.document;
        trial.drain_packed(run, document.bytes.as_slice(), document.as_packed())
    }
}

impl Way for Halves {
    const NAME: &'static str = "halves";

    fn go<S: Selector>(self, trial: &mut Trial<'_>, run: &mut Run<S>) -> anyhow::Result<()> {
        let Reading { tags, end } = trial.case.document.as_packed();
        let (front, back) = tags.split_at(tags.len() / 2);
        for tags in [front, back] {
            let bytes = packed(trial.checker.rt.alloc(), tags)?;
            trial.drain_packed(run, bytes.as_slice(), Reading { tags, end })?;
        }
        Ok(())
    }
}

impl Way for Calls {
    const NAME: &'static str = "calls";

    fn go<S: Selector>(self, trial: &mut Trial<'_>, run: &mut Run<S>) -> anyhow::Result<()> {
        for tag in trial.case.document.tags.as_slice() {
            trial.call(run, *tag)?;
        }
        Ok(())
    }
}

impl Way for Million {
    const NAME: &'static str = "a million openings";

    fn go<S: Selector>(self, trial: &mut Trial<'_>, run: &mut Run<S>) -> anyhow::Result<()> {
        trial.call(run, Tag::Open(0))?;
        for _ in 0..32 {
            Bytes.go(trial, run)?;
        }
        Ok(())
    }
}
