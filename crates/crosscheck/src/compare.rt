//! Runs of the library, each call of them held to the book.
use crate::answers::Answer;
use crate::book::{Book, Terms};
use crate::checker::{Case, Checker};
use crate::document::{Reading, Tag};
use crate::tally::Chosen;
use crate::ways::{Bytes, Calls, Halves, Lines, Way};
use base::packed::PackedSource;
use base::run::{Run, Totals};
use base::selector::Selector;
use base::source::TagSource;
use grading::begun::{Begun, begin};
use text::refusal::Refusal;

// Stands in a list where no drain wrote.
const BLANK: u32 = 4_000_000_000;

/// A case that is run, and the book of the present run.
#[derive(Drop)]
pub struct Trial<'a> {
    pub checker: &'a mut Checker,
    pub case: Case<'a>,
    book: Book<'a>,
}

impl<'a> Trial<'a> {
    pub fn new(checker: &'a mut Checker, case: Case<'a>) -> Trial<'a> {
        let book = Book::new(checker.rt.alloc(), case.query.wanted, case.terms);
        Trial {
            checker,
            case,
            book,
        }
    }

    /// Runs the case in each way, with one selector for all the runs; where it could not be made, holds the refusal to the
    /// expected one.
    pub fn compare<S: Selector + Drop>(
        &mut self,
        made: Result<S, Refusal>,
        expected: Answer,
    ) -> anyhow::Result<()> {
        self.checker.hold(self.case, expected, Answer::from(&made))?;
        let Ok(selector) = made else {
            return Ok(());
        };
        let Terms { limit, .. } = self.case.terms;
        let carries = self.case.terms.carries();
        self.checker
            .hold(self.case, carries, Answer::of_selector(&selector))?;
        let selector = self.by_lines(selector)?;
        let selector = self.hold_run(Bytes, Run::begin(selector, limit))?;
        let selector = self.hold_run(Halves, Run::begin(selector, limit))?;
        let selector = self.hold_run(Calls, Run::begin(selector, limit))?;
        drop(selector);
        Ok(())
    }

    // A run that drains the tag lines, begun by the call that grades the query.
    fn by_lines<S: Selector + Drop>(&mut self, selector: S) -> anyhow::Result<S> {
        let Begun { graded, run } = begin(self.case.query.table, selector, self.case.terms.limit);
        let selector = self.hold_run(Lines, run)?;
        let expected = Answer::Graded(self.case.query.grade);
        self.checker
            .hold(self.case, expected, Answer::Graded(graded.grade.into()))?;
        Ok(selector)
    }

    /// Holds a run to a blank book, and gives the selector back.
    pub fn hold_run<W: Way + Copy, S: Selector + Drop>(
        &mut self,
        way: W,
        mut run: Run<S>,
    ) -> anyhow::Result<S> {
        self.case.way = W::NAME;
        self.book = Book::new(
            self.checker.rt.alloc(),
            self.case.query.wanted,
            self.case.terms,
        );
        let done = way.go(self, &mut run);
        let (totals, selector) = run.end();
        done?;
        self.end(totals)?;
        Ok(selector)
    }

    /// Holds a call to the book's answer.
    pub fn call<S: Selector>(&mut self, run: &mut Run<S>, tag: Tag) -> anyhow::Result<()> {
        let expected = self.book.take(tag)?;
        let got = match tag {
            Tag::Open(label) => Answer::from(run.open(label)),
            Tag::Close(label) => Answer::from(run.close(label)),
        };
        self.hold(expected, got)
    }

    /// Holds a drain to the book's: its answer, and each place of its list.
    pub fn drain<S: Selector, T: TagSource>(
        &mut self,
        run: &mut Run<S>,
        source: &mut T,
        reading: Reading<'_>,
    ) -> anyhow::Result<()> {
        let heap = self.checker.rt.alloc();
        let mut picked = Vec::new(heap);
        let expected = self.book.drain(reading, &mut picked)?;
        let mut list = vec![in heap; BLANK; self.case.places]?;
        let got = run.drain(source, list.as_mut_slice());
        self.hold(expected, got.into())?;
        if self.follows() {
            self.hold_list(picked.as_slice(), list.as_slice())?;
        }
        Ok(())
    }

    /// Holds a drain of packed bytes to the book's.
    pub fn drain_packed<S: Selector>(
        &mut self,
        run: &mut Run<S>,
        bytes: &[u8],
        reading: Reading<'_>,
    ) -> anyhow::Result<()> {
        let mut source = PackedSource::new(bytes)?;
        self.drain(run, &mut source, reading)
    }

    // Holds the totals to the book's.
    fn end(&mut self, totals: Totals) -> anyhow::Result<()> {
        self.checker.tally.count_run(self.case.selector);
        let expected = self.book.totals();
        self.hold(expected, totals.into())
    }

    // Whether the selector still picks what the book does: after a closing with another element's label only the stack
    // selector is sure to.
    fn follows(&self) -> bool {
        self.book.nested || self.case.selector == Chosen::Stack
    }

    // Holds an answer to the book's, in what it says of picks only where the selector still follows.
    fn hold(&mut self, expected: Answer, got: Answer) -> anyhow::Result<()> {
        if self.follows() {
            self.checker.hold(self.case, expected, got)
        } else {
            self.checker
                .hold(self.case, expected.without_picks(), got.without_picks())
        }
    }

    // Holds each place of a list to the picked elements in order; places past them are to be blank.
    fn hold_list(&mut self, picked: &[u32], list: &[u32]) -> anyhow::Result<()> {
        let mut picked = picked.iter().copied();
        for (place, number) in (0u32..).zip(list.iter().copied()) {
            let expected = picked.next().unwrap_or(BLANK);
            if expected != BLANK || number != BLANK {
                let listed = Answer::Listed {
                    place,
                    number: expected,
                };
                self.checker
                    .hold(self.case, listed, Answer::Listed { place, number })?;
            }
        }
        Ok(())
    }
}
