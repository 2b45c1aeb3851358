//! Fixed cases: limits that fit or not, the deepest run, and a run of a million openings.
use crate::answers::{Answer, Cause, Grade};
use crate::book::{MOST_LEVELS, Terms};
use crate::checker::{Case, Checker, Query};
use crate::compare::Trial;
use crate::document::{Document, Tag};
use crate::rules::Rule;
use crate::steps::Step;
use crate::tally::Chosen;
use crate::wanted::Wanted;
use crate::ways::Million;
use base::packed::PackedSource;
use base::run::Run;
use base::selector::Selector;
use base::stack_selector::StackSelector;
use grading::registerless::RegisterlessSelector;
use grading::stackless::StacklessSelector;
use std::alloc::{AllocError, Global};
use text::labels::Labels;
use text::refusal::Refusal;

// Numbers of stack bytes and limits, and whether a run with them takes tags.
const STACK_LIMITS: [(u32, u32, bool); 8] = [
    (0, 1, false),
    (3, 0, false),
    (3, 3, true),
    (3, 4, false),
    (65_535, 65_535, true),
    (65_600, 65_535, true),
    (65_600, 65_536, false),
    (65_600, 4_294_967_295, false),
];

// The same of selectors that need no stack.
const FREE_LIMITS: [(u32, bool); 4] = [(0, false), (1, true), (65_535, true), (65_536, false)];

// The terms of a run of `//a`, and whether it takes tags.
#[derive(Clone, Copy)]
struct Limits {
    selector: Chosen,
    terms: Terms,
    fits: bool,
}

impl Checker {
    /// Holds limits, and the deepest runs, of selectors of `//a`.
    pub fn hold_limits(&mut self, names: &Labels) -> anyhow::Result<()> {
        let Some(table) = self.table_of(names, "//a")? else {
            return Ok(());
        };
        let labels = names.count();
        for (levels, limit, fits) in STACK_LIMITS {
            let carry = levels.min(MOST_LEVELS);
            let limits = Limits {
                selector: Chosen::Stack,
                terms: Terms {
                    labels,
                    carry,
                    limit,
                },
                fits,
            };
            let mut bytes = vec![in self.rt.alloc(); 0xee_u8; levels as usize]?;
            let selector = StackSelector::new(&table, bytes.as_mut_slice());
            self.hold_limit(limits, Ok(selector))?;
        }
        for (limit, fits) in FREE_LIMITS {
            let terms = Terms {
                labels,
                carry: MOST_LEVELS,
                limit,
            };
            let limits = |selector| Limits {
                selector,
                terms,
                fits,
            };
            let made = RegisterlessSelector::new(&table);
            self.hold_limit(limits(Chosen::Registerless), made)?;
            let made = StacklessSelector::new(&table);
            self.hold_limit(limits(Chosen::Stackless), made)?;
        }
        Ok(())
    }

    // Holds the first answers of a run, and where its limit is the highest, a drain down to it.
    fn hold_limit<S: Selector + Drop>(
        &mut self,
        limits: Limits,
        made: Result<S, Refusal>,
    ) -> anyhow::Result<()> {
        let Limits {
            selector: kind,
            terms,
            fits,
        } = limits;
        let Some(selector) = self.made(kind, made)? else {
            return Ok(());
        };
        self.hold_fixed("a carry", terms.carries(), Answer::of_selector(&selector))?;
        let mut run = Run::begin(selector, terms.limit);
        let unknown = Answer::from(run.open(255));
        let root = Answer::from(run.open(0));
        let (_, selector) = run.end();
        self.tally.count_run(kind);
        let opened = Answer::Opened {
            element: 0,
            picked: true,
        };
        let (of_unknown, of_root) = if fits {
            (Answer::from(Rule::Label), opened)
        } else {
            let refused = Answer::from(Rule::Limit);
            (refused, refused)
        };
        self.hold_fixed("an unknown label", of_unknown, unknown)?;
        self.hold_fixed("a limit", of_root, root)?;
        if terms.limit == MOST_LEVELS {
            return self.hold_deepest(kind, selector);
        }
        drop(selector);
        Ok(())
    }

    // Opens one element more than the highest limit has levels: each is picked, and the last is refused.
    fn hold_deepest<S: Selector + Drop>(
        &mut self,
        kind: Chosen,
        selector: S,
    ) -> anyhow::Result<()> {
        let bytes = vec![in self.rt.alloc(); 0_u8; 65_536]?;
        let mut source = PackedSource::new(bytes.as_slice())?;
        let mut list = [9; 3];
        let mut run = Run::begin(selector, MOST_LEVELS);
        let drained = run.drain(&mut source, &mut list);
        let (totals, selector) = run.end();
        drop(selector);
        self.tally.count_run(kind);
        let expected = Answer::Drained {
            offered: 65_536,
            picks: 65_535,
            end: Err(Cause::Refused {
                number: Rule::TooDeep.into(),
                tag: 65_536,
            }),
        };
        self.hold_fixed("the deepest drain", expected, drained.into())?;
        let [_, _, number] = list;
        let expected = Answer::Listed {
            place: 2,
            number: 2,
        };
        self.hold_fixed(
            "the deepest list",
            expected,
            Answer::Listed { place: 2, number },
        )?;
        let expected = Answer::Ended {
            openings: 65_535,
            picks: 65_535,
            whole: false,
        };
        self.hold_fixed("the deepest run", expected, totals.into())
    }

    /// Holds a run with an opening more than there may be: the root, and then drains of as many children as fit.
    pub fn hold_million(&mut self, names: &Labels) -> anyhow::Result<()> {
        let Some(table) = self.table_of(names, "/a/b")? else {
            return Ok(());
        };
        let heap = self.rt.alloc();
        let document = children(heap, names.count())?;
        let query = Query {
            wanted: &Wanted::Path([Step::child(0), Step::child(1)].to_vec(heap)?),
            text: "/a/b",
            names,
            table: &table,
            minimal: &table,
            grade: Grade::Stackless,
        };
        let case = Case {
            query,
            document: &document,
            selector: Chosen::Stack,
            terms: Terms {
                labels: names.count(),
                carry: 2,
                limit: 2,
            },
            places: 4,
            way: "making",
        };
        self.hold_openings(case, &mut [0xee; 2])
    }

    // The run of the stack selector over these bytes.
    fn hold_openings<'a>(&mut self, case: Case<'a>, bytes: &'a mut [u8]) -> anyhow::Result<()> {
        let selector = StackSelector::new(case.query.table, bytes);
        let run = Run::begin(selector, case.terms.limit);
        let selector = Trial::new(self, case).hold_run(Million, run)?;
        drop(selector);
        Ok(())
    }
}

// As many elements with label 1, side by side, as packed bytes may have.
fn children(heap: Global, labels: u8) -> Result<Document, AllocError> {
    let mut tags = Vec::new(heap);
    for _ in 0..32_768 {
        tags.push(Tag::Open(1))?;
        tags.push(Tag::Close(1))?;
    }
    Document::new(heap, labels, tags, None)
}
