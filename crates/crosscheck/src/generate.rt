//! Generated paths and documents.
use crate::damage::{Damage, Spot};
use crate::document::{Document, Tag};
use crate::random::Random;
use crate::steps::{Step, Test};
use std::alloc::{AllocError, Global};

/// How a document grows: so many turns, each of which opens an element with this chance in a hundred where fewer than `most`
/// are open, and else closes one.
#[derive(Clone, Copy)]
pub struct Shape {
    turns: u32,
    most: usize,
    percent: u32,
}

impl Shape {
    /// Shallow and bushy, a random walk, or tiny.
    pub fn any(random: &mut Random) -> Shape {
        match random.below(3) {
            0 => Shape {
                turns: random.between(30, 120),
                most: 4,
                percent: 50,
            },
            1 => Shape {
                turns: random.between(60, 240),
                most: 60,
                percent: 55,
            },
            _ => Shape {
                turns: random.between(0, 8),
                most: 8,
                percent: 60,
            },
        }
    }

    /// Narrow, and nearly as deep as it has turns.
    pub fn deep(turns: u32) -> Shape {
        Shape {
            turns,
            most: 60_000,
            percent: 95,
        }
    }
}

/// Generates over so many labels.
#[derive(Drop)]
pub struct Generator<'a> {
    pub heap: Global,
    pub random: &'a mut Random,
    pub labels: u8,
}

impl Generator<'_> {
    /// A path of 1 to 5 steps.
    pub fn steps(&mut self) -> Result<Vec<Step>, AllocError> {
        let mut steps = Vec::new(self.heap);
        for _ in 0..self.random.between(1, 5) {
            let test = if self.random.chance(25) {
                Test::Any
            } else {
                Test::Label(self.random.label(self.labels))
            };
            let descend = self.random.chance(45);
            steps.push(Step { descend, test })?;
        }
        Ok(steps)
    }

    /// A document of a shape, with its damage.
    pub fn document(
        &mut self,
        shape: Shape,
        damage: Option<Damage>,
    ) -> Result<Document, AllocError> {
        let mut tags = self.nested(shape)?;
        let spot = Spot::any(self.random, self.labels, tags.as_slice());
        let flawed = match damage {
            Some(damage) => damage.apply(self.random, self.labels, spot, &mut tags)?,
            None => None,
        };
        Document::new(self.heap, self.labels, tags, flawed)
    }

    // A well-nested document with one root.
    fn nested(&mut self, shape: Shape) -> Result<Vec<Tag>, AllocError> {
        let mut tags = Vec::new(self.heap);
        let mut path = Vec::new(self.heap);
        for _ in 0..shape.turns {
            let more = path.len() < shape.most && self.random.chance(shape.percent);
            if more || path.len() < 2 {
                let label = self.random.label(self.labels);
                path.push(label)?;
                tags.push(Tag::Open(label))?;
            } else if let Some(label) = path.pop() {
                tags.push(Tag::Close(label))?;
            }
        }
        for label in path.iter().rev() {
            tags.push(Tag::Close(*label))?;
        }
        Ok(tags)
    }
}
