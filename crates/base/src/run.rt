//! A run: one reading of a document by a selector.
ghost use Rattle.std.specs.Prelude.{◌≡◌, ◌≤◌, length, if◌then◌else◌, nat_lt, slice_set};
ghost use Rattle.base.specs.Phases.{is_inside};

use crate::selector::{MAX_LEVELS, Selector};
use crate::source::{Fault, TagSource};
use automata::tag::Tag;
use text::refusal::Refusal;

const MOST_OPENINGS: u32 = 1_000_000;

/// Where a run is, against its root element.
#[derive(Clone, Copy, PartialEq, Eq)]
pub enum Phase {
    Before,
    Inside,
    After,
}

/// A selector, and how far its document is read.
pub struct Run<S> {
    selector: S,
    limit: u32,
    phase: Phase,
    depth: u32,
    openings: u32,
    picks: u32,
    ghost phased: { is_inside phase ≡ nat_lt 0 depth },
    ghost bounded: { (depth ≤ limit) × (depth ≤ openings) × (picks ≤ openings) × (openings ≤ 1000000) },
}

// A flag and no `Option`: an element that is not picked has its number too.
/// An element that was opened: its number, and whether the selector wants it.
#[derive(Clone, Copy, PartialEq, Eq, Debug)]
pub struct Opened {
    pub element: u32,
    pub picked: bool,
}

/// What a taken tag did: an element was opened, or one was closed and this depth is left.
#[derive(Clone, Copy)]
pub enum Taken {
    Opened(Opened),
    Closed(u32),
}

/// Why a drain stopped before a clean end: at a faulty line, or at a tag that the run refused, with its number from 1.
#[derive(Clone, Copy, PartialEq, Eq, Debug)]
pub enum Cause {
    Fault(Fault),
    Refused { refusal: Refusal, tag: u32 },
}

/// A drain's answer: the tags offered, a refused one counted, its picks, and how it ended.
#[derive(Clone, Copy, PartialEq, Eq, Debug)]
pub struct Drained {
    pub offered: u32,
    pub picks: u32,
    pub end: Result<(), Cause>,
}

/// What a run amounted to: whole where its root was closed.
#[derive(Clone, Copy, PartialEq, Eq, Debug)]
pub struct Totals {
    pub openings: u32,
    pub picks: u32,
    pub whole: bool,
}

impl<S: Selector> Run<S> {
    ghost use Rattle.std.specs.Prelude.{◌<◌};
    ghost use Rattle.base.specs.History.{KeepsItsBook};
    ghost use Rattle.base.specs.Promises.{BeginPromise, Opens, Closes, OpenPromise, ClosePromise, OfferPromise, DrainPromise, EndPromise};

    /// Renews the selector, and never refuses: an unfit limit refuses each tag.
    pub fn begin(mut selector: S, limit: u32) -> Run<S>
        ensures promise { BeginPromise S.moves selector limit result }
        ensures law { KeepsItsBook S.meaning S.moves selector limit result }
    {
        selector.renew();
        Run {
            selector,
            limit,
            phase: Phase::Before,
            depth: 0,
            openings: 0,
            picks: 0,
        }
    }

    /// Opens an element: its number, and whether the selector wants it.
    pub fn open(&mut self, label: u8) -> Result<Opened, Refusal>
        ensures { OpenPromise S.meaning S.moves self.old label self.new result }
    {
        match self.offer(Tag::Open(label))? {
            Taken::Opened(opened) => Ok(opened),
            Taken::Closed(_) => unreachable!(),
        }
    }

    /// Closes the innermost element: the depth left.
    pub fn close(&mut self, label: u8) -> Result<u32, Refusal>
        ensures { ClosePromise S.meaning S.moves self.old label self.new result }
    {
        match self.offer(Tag::Close(label))? {
            Taken::Opened(_) => unreachable!(),
            Taken::Closed(left) => Ok(left),
        }
    }

    /// Offers each tag of the source until it ends or a tag is refused. The list takes the numbers of the
    /// picked elements from its first place on, as many as fit.
    pub fn drain<T: TagSource>(&mut self, source: &mut T, list: &mut [u32]) -> Drained
        ensures { DrainPromise S.meaning S.moves self.old (T.holds source.old) list.old self.new (T.holds source.new) list.new result }
    {
        let mut offered = 0;
        let mut picks = 0;
        let end = loop {
            let tag = match source.next() {
                Ok(Some(tag)) => tag,
                Ok(None) => break Ok(()),
                Err(fault) => break Err(Cause::Fault(fault)),
            };
            offered += 1;
            let did = match self.offer(tag) {
                Ok(did) => did,
                Err(refusal) => break Err(Cause::Refused {
                    refusal,
                    tag: offered,
                }),
            };
            if let Some(element) = did.picked() {
                put(list, picks as usize, element);
                picks += 1;
            }
        };
        Drained {
            offered,
            picks,
            end,
        }
    }

    /// Ends the run: its totals, and the selector back.
    pub fn end(self) -> (Totals, S)
        ensures { EndPromise self result.0 result.1 }
    {
        let Run {
            selector,
            limit: _,
            phase,
            depth: _,
            openings,
            picks,
        } = self;
        let totals = Totals {
            openings,
            picks,
            whole: phase == Phase::After,
        };
        (totals, selector)
    }

    // Steps by a tag, or refuses it: the limit and the label are tested first, and then tag and phase decide.
    fn offer(&mut self, tag: Tag) -> Result<Taken, Refusal>
        ensures { OfferPromise S.meaning S.moves self.old tag self.new result }
    {
        let label = tag.label();
        if self.limit == 0
            || self.limit > u32::from(MAX_LEVELS)
            || self.limit > self.selector.carry()
        {
            return Err(Refusal::Limit);
        }
        if label >= self.selector.label_count() {
            return Err(Refusal::Label);
        }
        match (tag, self.phase) {
            (Tag::Open(_), Phase::After) => Err(Refusal::AfterRoot),
            (Tag::Open(_), Phase::Before | Phase::Inside) => {
                if self.depth == self.limit {
                    return Err(Refusal::TooDeep);
                }
                if self.openings == MOST_OPENINGS {
                    return Err(Refusal::TooMany);
                }
                Ok(Taken::Opened(self.enter(label)))
            }
            (Tag::Close(_), Phase::Inside) => Ok(Taken::Closed(self.leave(label))),
            (Tag::Close(_), Phase::Before | Phase::After) => Err(Refusal::NothingOpen),
        }
    }

    // One level down.
    fn enter(&mut self, label: u8) -> Opened
        requires { (self.old.depth < self.old.limit) × (self.old.openings < 1000000) }
        ensures { Opens S.moves self.old label self.new result }
    {
        let element = self.openings;
        let picked = self.selector.open(label);
        self.phase = Phase::Inside;
        self.depth += 1;
        self.openings += 1;
        if picked {
            self.picks += 1;
        }
        Opened { element, picked }
    }

    // One level up: the depth left.
    fn leave(&mut self, label: u8) -> u32
        requires { 0 < self.old.depth }
        ensures { Closes S.moves self.old label self.new result }
    {
        self.selector.close(label);
        if self.depth == 1 {
            self.phase = Phase::After;
        }
        self.depth -= 1;
        self.depth
    }
}

impl Taken {
    ghost use Rattle.std.specs.Option.{option_to_list};
    ghost use Rattle.base.specs.Courses.{picked};

    // The number of the element that the tag picked.
    fn picked(self) -> Option<u32>
        ensures { option_to_list result ≡ picked self }
    {
        match self {
            Taken::Opened(opened) => opened.picked.then_some(opened.element),
            Taken::Closed(_) => None,
        }
    }
}

// Writes x at the place i, if there is one. With `get_mut` the proof didn't close: where it gives none, nothing is known of the list.
fn put(list: &mut [u32], i: usize, x: u32)
    ensures { list.new ≡ (if nat_lt i (length list.old) then slice_set list.old i x else list.old) }
{
    if i < list.len() {
        list[i] = x;
    }
}
