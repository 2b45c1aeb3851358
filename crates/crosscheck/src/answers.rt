//! What a run answers, in this program's own words, and the library's answers turned into them.
use crate::rules::Rule;
use base::run::{Drained, Opened, Totals};
use base::selector::Selector;
use base::source::Fault;
use text::refusal::Refusal;

// Grades, causes and answers are not the library's, with which the evaluator shares no code.
/// The grade of a table.
#[derive(Clone, Copy, PartialEq, Eq, Debug)]
pub enum Grade {
    Registerless,
    Stackless,
    Neither,
}

/// Why a drain stopped before a clean end: at a faulty line, or at a tag that was refused, with the number of the rule.
#[derive(Clone, Copy, PartialEq, Eq, Debug)]
pub enum Cause {
    Fault { number: u8, line: u32 },
    Refused { number: u8, tag: u32 },
}

/// One answer of a run, or of a call that makes what a run is made of.
#[derive(Clone, Copy, PartialEq, Eq, Debug)]
pub enum Answer {
    Made,
    Graded(Grade),
    Carries {
        labels: u8,
        levels: u32,
    },
    Refused(u8),
    Opened {
        element: u32,
        picked: bool,
    },
    Closed {
        left: u32,
    },
    Drained {
        offered: u32,
        picks: u32,
        end: Result<(), Cause>,
    },
    Listed {
        place: u32,
        number: u32,
    },
    Ended {
        openings: u32,
        picks: u32,
        whole: bool,
    },
}

impl From<grading::grade::Grade> for Grade {
    fn from(grade: grading::grade::Grade) -> Grade {
        match grade {
            grading::grade::Grade::Registerless => Grade::Registerless,
            grading::grade::Grade::Stackless => Grade::Stackless,
            grading::grade::Grade::Neither => Grade::Neither,
        }
    }
}

impl From<base::run::Cause> for Cause {
    fn from(cause: base::run::Cause) -> Cause {
        match cause {
            base::run::Cause::Fault(Fault { refusal, line }) => Cause::Fault {
                number: refusal.into(),
                line,
            },
            base::run::Cause::Refused { refusal, tag } => Cause::Refused {
                number: refusal.into(),
                tag,
            },
        }
    }
}

impl From<Rule> for Answer {
    fn from(rule: Rule) -> Answer {
        Answer::Refused(rule.into())
    }
}

impl From<Refusal> for Answer {
    fn from(refusal: Refusal) -> Answer {
        Answer::Refused(refusal.into())
    }
}

impl<T> From<&Result<T, Refusal>> for Answer {
    fn from(made: &Result<T, Refusal>) -> Answer {
        match made {
            Ok(_) => Answer::Made,
            Err(refusal) => Answer::from(*refusal),
        }
    }
}

impl From<Result<Opened, Refusal>> for Answer {
    fn from(opening: Result<Opened, Refusal>) -> Answer {
        match opening {
            Ok(Opened { element, picked }) => Answer::Opened { element, picked },
            Err(refusal) => Answer::from(refusal),
        }
    }
}

impl From<Result<u32, Refusal>> for Answer {
    fn from(closing: Result<u32, Refusal>) -> Answer {
        closing.map_or_else(Answer::from, |left| Answer::Closed { left })
    }
}

impl From<Drained> for Answer {
    fn from(drained: Drained) -> Answer {
        Answer::Drained {
            offered: drained.offered,
            picks: drained.picks,
            end: drained.end.map_err(Cause::from),
        }
    }
}

impl From<Totals> for Answer {
    fn from(totals: Totals) -> Answer {
        Answer::Ended {
            openings: totals.openings,
            picks: totals.picks,
            whole: totals.whole,
        }
    }
}

impl Answer {
    /// The labels that a selector knows, and the levels that it can follow.
    pub fn of_selector<S: Selector>(selector: &S) -> Answer {
        Answer::Carries {
            labels: selector.label_count(),
            levels: selector.carry(),
        }
    }

    /// The answer with nothing said of picks.
    pub fn without_picks(self) -> Answer {
        match self {
            Answer::Opened { element, .. } => Answer::Opened {
                element,
                picked: false,
            },
            Answer::Drained { offered, end, .. } => Answer::Drained {
                offered,
                picks: 0,
                end,
            },
            Answer::Ended {
                openings,
                whole,
                ..
            } => Answer::Ended {
                openings,
                picks: 0,
                whole,
            },
            other => other,
        }
    }

    /// The number of the rule by which it refuses.
    pub fn refusal(self) -> Option<u8> {
        match self {
            Answer::Refused(number) => Some(number),
            Answer::Drained { end, .. } => match end {
                Ok(()) => None,
                Err(Cause::Fault { number, .. } | Cause::Refused { number, .. }) => Some(number),
            },
            _ => None,
        }
    }
}
