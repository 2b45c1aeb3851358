//! Documents: lists of tags, what is wrong with one of their lines, and their two texts.
use crate::answers::Cause;
use crate::rules::Rule;
use crate::writing::{packed, tag_lines};
use std::alloc::{AllocError, Global};

// Not the library's, with which the evaluator shares no code.
/// An element opens or closes, by its label.
#[derive(Clone, Copy)]
pub enum Tag {
    Open(u8),
    Close(u8),
}

impl Tag {
    /// The label of the element.
    pub fn label(self) -> u8 {
        match self {
            Tag::Open(label) | Tag::Close(label) => label,
        }
    }
}

/// How a line is not what it should be.
#[derive(Clone, Copy)]
pub enum Flaw {
    Empty,
    NoTab,
    WrongMark,
    UpperCase,
    NoName,
    LongName,
    NoNewline,
    UnknownName,
}

impl From<Flaw> for Rule {
    fn from(flaw: Flaw) -> Rule {
        match flaw {
            Flaw::UnknownName => Rule::UnknownName,
            _ => Rule::TagLine,
        }
    }
}

/// A line that is not what it should be, by the place of its tag.
#[derive(Clone, Copy)]
pub struct FlawedLine {
    pub at: usize,
    pub flaw: Flaw,
}

/// Tags to be read, and how they end.
#[derive(Clone, Copy)]
pub struct Reading<'a> {
    pub tags: &'a [Tag],
    pub end: Result<(), Cause>,
}

/// Tags over so many labels. As lines, one of them may be flawed.
#[derive(Drop)]
pub struct Document {
    labels: u8,
    pub tags: Vec<Tag>,
    flawed: Option<FlawedLine>,
    pub lines: String,
    pub bytes: Vec<u8>,
}

impl Document {
    /// A document with its texts.
    pub fn new(
        heap: Global,
        labels: u8,
        tags: Vec<Tag>,
        flawed: Option<FlawedLine>,
    ) -> Result<Document, AllocError> {
        let lines = tag_lines(heap, tags.as_slice(), flawed)?;
        let bytes = packed(heap, tags.as_slice())?;
        Ok(Document {
            labels,
            tags,
            flawed,
            lines,
            bytes,
        })
    }

    /// What its packed bytes say: every tag.
    pub fn as_packed(&self) -> Reading<'_> {
        Reading {
            tags: self.tags.as_slice(),
            end: Ok(()),
        }
    }

    /// What its lines say: the tags before the first faulty line.
    pub fn as_lines(&self) -> Reading<'_> {
        let tags = self.tags.as_slice();
        for (at, tag) in tags.iter().enumerate() {
            if let Some(flaw) = self.flaw_at(at, *tag) {
                let number = Rule::from(flaw).into();
                let line = u32::try_from(at).unwrap_or(u32::MAX).saturating_add(1);
                return Reading {
                    tags: &tags[..at],
                    end: Err(Cause::Fault { number, line }),
                };
            }
        }
        self.as_packed()
    }

    // What is wrong with the line of the tag at this place.
    fn flaw_at(&self, at: usize, tag: Tag) -> Option<Flaw> {
        match self.flawed {
            Some(flawed) if flawed.at == at => Some(flawed.flaw),
            _ if tag.label() >= self.labels => Some(Flaw::UnknownName),
            _ => None,
        }
    }

    /// How many elements are open at once, at most.
    pub fn depth(&self) -> u32 {
        let mut depth = 0u32;
        let mut most = 0;
        for tag in self.tags.as_slice() {
            depth = match tag {
                Tag::Open(_) => depth.saturating_add(1),
                Tag::Close(_) => depth.saturating_sub(1),
            };
            most = depth.max(most);
        }
        most
    }
}
