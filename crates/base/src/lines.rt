//! Tags in the lines of a text.
ghost use Rattle.std.specs.Prelude.{◌≡◌, ◌+◌, ◌≤◌, length};

use crate::source::{Fault, TagSource};
use crate::tag_line::tag_of;
use automata::tag::Tag;
use text::MAX_BYTES;
use text::labels::Labels;
use text::pieces::place_of;
use text::refusal::Refusal;

/// The lines that are left of a text, and the number of the next one.
#[derive(Drop)]
pub struct LineSource<'a> {
    labels: &'a Labels,
    text: &'a [u8],
    line: u32,
    ghost counted: { line + length text.now ≤ 65537 },
}

impl<'a> LineSource<'a> {
    ghost use Rattle.base.specs.Lines.{Starts};
    ghost use Rattle.text.specs.Labelled.{names_of};

    /// The tags of a text; refuses one of more than 65,536 bytes.
    pub fn new(labels: &'a Labels, text: &'a [u8]) -> Result<LineSource<'a>, Refusal>
        ensures { Starts (names_of labels.now) text.now result }
    {
        if text.len() > MAX_BYTES {
            return Err(Refusal::TooLong);
        }
        Ok(LineSource {
            labels,
            text,
            line: 1,
        })
    }
}

impl<'a> TagSource for LineSource<'a> {
    ghost use Rattle.base.specs.Lines.{lines_hold};

    ghost holds = { lines_hold };

    fn next(&mut self) -> Result<Option<Tag>, Fault> {
        if self.text.is_empty() {
            return Ok(None);
        }
        let Some(n) = place_of(b'\n', self.text) else {
            return Err(Fault {
                refusal: Refusal::TagLine,
                line: self.line,
            });
        };
        match tag_of(self.labels, &self.text[..n]) {
            Ok(tag) => {
                self.text = &self.text[n + 1..];
                self.line += 1;
                Ok(Some(tag))
            }
            Err(refusal) => Err(Fault {
                refusal,
                line: self.line,
            }),
        }
    }
}
