//! What can be wrong with a document.
use crate::document::{Flaw, FlawedLine, Tag};
use crate::random::Random;
use std::alloc::AllocFailed;

/// Wrong tags, or a wrong line.
#[derive(Clone, Copy)]
pub enum Damage {
    CutOff,
    ClosingTooMany,
    SecondRoot,
    UnknownLabel,
    WrongClosing,
    Line(Flaw),
}

/// No damage, and every kind of it.
pub const KINDS: [Option<Damage>; 14] = [
    None,
    Some(Damage::CutOff),
    Some(Damage::ClosingTooMany),
    Some(Damage::SecondRoot),
    Some(Damage::UnknownLabel),
    Some(Damage::WrongClosing),
    Some(Damage::Line(Flaw::Empty)),
    Some(Damage::Line(Flaw::NoTab)),
    Some(Damage::Line(Flaw::WrongMark)),
    Some(Damage::Line(Flaw::UpperCase)),
    Some(Damage::Line(Flaw::NoName)),
    Some(Damage::Line(Flaw::LongName)),
    Some(Damage::Line(Flaw::NoNewline)),
    Some(Damage::Line(Flaw::UnknownName)),
];

/// Where damage is done: a place among the tags, and a label for what is put there.
#[derive(Clone, Copy)]
pub struct Spot {
    at: usize,
    label: u8,
}

impl Spot {
    /// A random place, the last one at times.
    pub fn any(random: &mut Random, labels: u8, tags: &[Tag]) -> Spot {
        let last = tags.len().saturating_sub(1);
        let at = if random.chance(20) {
            last
        } else {
            random.below(u32::try_from(last).unwrap_or(u32::MAX)) as usize
        };
        let label = random.label(labels);
        Spot { at, label }
    }
}

impl Damage {
    /// Damages the tags at a spot, or names the line that is to be damaged.
    pub fn apply(
        self,
        random: &mut Random,
        labels: u8,
        spot: Spot,
        tags: &mut Vec<Tag>,
    ) -> Result<Option<FlawedLine>, AllocFailed<Tag>> {
        let Spot { at, label } = spot;
        match self {
            Damage::CutOff => tags.truncate(at),
            Damage::ClosingTooMany => tags.push(Tag::Close(label))?,
            Damage::SecondRoot => {
                tags.push(Tag::Open(label))?;
                tags.push(Tag::Close(label))?;
            }
            Damage::UnknownLabel => put_label(tags, at, unknown(random, labels)),
            Damage::WrongClosing => change_closing(labels, tags, at),
            Damage::Line(flaw) => return Ok(Some(FlawedLine { at, flaw })),
        }
        Ok(None)
    }
}

// A label at or above the count, up to the highest that a byte takes.
fn unknown(random: &mut Random, labels: u8) -> u8 {
    if random.chance(50) {
        labels
    } else {
        random.label(127 - 16) | 16
    }
}

// The tag at the place gets the label.
fn put_label(tags: &mut Vec<Tag>, at: usize, label: u8) {
    if let Some(tag) = tags.get_mut(at) {
        *tag = match tag {
            Tag::Open(_) => Tag::Open(label),
            Tag::Close(_) => Tag::Close(label),
        };
    }
}

// The first closing from the place on gets another label, where there is one.
fn change_closing(labels: u8, tags: &mut Vec<Tag>, at: usize) {
    for tag in tags.iter_mut().skip(at) {
        if let Tag::Close(label) = *tag {
            let other = if label == 0 {
                labels.saturating_sub(1)
            } else {
                0
            };
            *tag = Tag::Close(other);
            return;
        }
    }
}
