//! The book of a run: what it ought to answer, kept from the tags alone.
use crate::answers::{Answer, Cause};
use crate::document::{Reading, Tag};
use crate::rules::Rule;
use crate::wanted::Wanted;
use std::alloc::{AllocError, Global};

/// The most levels that a limit can ask for; not the constant of the library, which is held to it.
pub const MOST_LEVELS: u32 = 65_535;

/// What a run is begun with: the labels and the levels that its selector has, and the limit.
#[derive(Clone, Copy)]
pub struct Terms {
    pub labels: u8,
    pub carry: u32,
    pub limit: u32,
}

impl Terms {
    /// What the selector has.
    pub fn carries(self) -> Answer {
        Answer::Carries {
            labels: self.labels,
            levels: self.carry,
        }
    }
}

/// The labels of the open elements, outermost first, and what was counted so far.
#[derive(Drop)]
pub struct Book<'a> {
    heap: Global,
    wanted: &'a Wanted,
    terms: Terms,
    path: Vec<u8>,
    openings: u32,
    picks: u32,
    // whether the root was closed
    whole: bool,
    /// Whether each closing that was taken bore its element's label.
    pub nested: bool,
}

impl<'a> Book<'a> {
    /// A blank book.
    pub fn new(heap: Global, wanted: &'a Wanted, terms: Terms) -> Book<'a> {
        Book {
            heap,
            wanted,
            terms,
            path: Vec::new(heap),
            openings: 0,
            picks: 0,
            whole: false,
            nested: true,
        }
    }

    // Refuses the tag by the first rule that it breaks.
    fn check(&self, tag: Tag) -> Result<(), Rule> {
        let limit = self.terms.limit;
        if limit < 1 || limit > MOST_LEVELS || limit > self.terms.carry {
            return Err(Rule::Limit);
        }
        if tag.label() >= self.terms.labels {
            return Err(Rule::Label);
        }
        match tag {
            Tag::Open(_) if self.whole => Err(Rule::AfterRoot),
            Tag::Open(_) if self.path.len() >= limit as usize => Err(Rule::TooDeep),
            Tag::Open(_) if self.openings >= 1_000_000 => Err(Rule::TooMany),
            Tag::Close(_) if self.path.is_empty() => Err(Rule::NothingOpen),
            _ => Ok(()),
        }
    }

    /// Takes the tag, or refuses it and stays as it is.
    pub fn take(&mut self, tag: Tag) -> Result<Answer, AllocError> {
        if let Err(rule) = self.check(tag) {
            return Ok(Answer::from(rule));
        }
        match tag {
            Tag::Open(label) => self.opened(label),
            Tag::Close(label) => Ok(self.closed(label)),
        }
    }

    // An element more is open, and picked where its path is wanted.
    fn opened(&mut self, label: u8) -> Result<Answer, AllocError> {
        self.path.push(label)?;
        let element = self.openings;
        let picked = self.wanted.wants(self.heap, self.path.as_slice())?;
        self.openings = element.saturating_add(1);
        self.picks = self.picks.saturating_add(u32::from(picked));
        Ok(Answer::Opened { element, picked })
    }

    // The last open element is closed.
    fn closed(&mut self, label: u8) -> Answer {
        if self.path.pop() != Some(label) {
            self.nested = false;
        }
        self.whole = self.path.is_empty();
        let left = u32::try_from(self.path.len()).unwrap_or(u32::MAX);
        Answer::Closed { left }
    }

    /// Takes tags until they end or one is refused. The numbers of the picked elements are put into the list.
    pub fn drain(
        &mut self,
        reading: Reading<'_>,
        picked: &mut Vec<u32>,
    ) -> Result<Answer, AllocError> {
        let before = self.picks;
        let mut offered = 0;
        let mut end = reading.end;
        for (count, tag) in (1u32..).zip(reading.tags) {
            offered = count;
            match self.take(*tag)? {
                Answer::Opened {
                    element,
                    picked: true,
                } => picked.push(element)?,
                Answer::Refused(number) => {
                    end = Err(Cause::Refused { number, tag: count });
                    break;
                }
                _ => {}
            }
        }
        let picks = self.picks.saturating_sub(before);
        Ok(Answer::Drained {
            offered,
            picks,
            end,
        })
    }

    /// What the run amounts to so far.
    pub fn totals(&self) -> Answer {
        Answer::Ended {
            openings: self.openings,
            picks: self.picks,
            whole: self.whole,
        }
    }
}
