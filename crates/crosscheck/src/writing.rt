//! Label lines, paths and documents as texts.
use crate::document::{Flaw, FlawedLine, Tag};
use crate::steps::{Step, Test};
use std::alloc::{AllocError, Global};

// A label's name; no label line has the last one.
fn name(label: u8) -> &'static str {
    match label {
        0 => "a",
        1 => "b",
        2 => "c",
        3 => "roast-4",
        4 => "5th",
        _ => "z",
    }
}

/// The line of the first labels.
pub fn label_line(heap: Global, labels: u8) -> Result<String, AllocError> {
    let mut line = String::from_str(heap, "labels")?;
    for label in 0..labels {
        line.push_str("\t")?;
        line.push_str(name(label))?;
    }
    line.push_str("\n")?;
    Ok(line)
}

/// The text of a path.
pub fn path_text(heap: Global, steps: &[Step]) -> Result<String, AllocError> {
    let mut text = String::new(heap);
    for step in steps {
        text.push_str(if step.descend { "//" } else { "/" })?;
        text.push_str(match step.test {
            Test::Label(label) => name(label),
            Test::Any => "*",
        })?;
    }
    Ok(text)
}

/// The tag lines of a document, one of them with its flaw.
pub fn tag_lines(
    heap: Global,
    tags: &[Tag],
    flawed: Option<FlawedLine>,
) -> Result<String, AllocError> {
    let mut lines = String::new(heap);
    for (at, tag) in tags.iter().enumerate() {
        let parts = match flawed {
            Some(flawed) if flawed.at == at => flawed_line(*tag, flawed.flaw),
            _ => [mark(*tag), "\t", name(tag.label()), "\n"],
        };
        for part in parts {
            lines.push_str(part)?;
        }
    }
    Ok(lines)
}

// The mark of a tag line.
fn mark(tag: Tag) -> &'static str {
    match tag {
        Tag::Open(_) => "+",
        Tag::Close(_) => "-",
    }
}

// The mark, the tab, the name and the newline of a faulty line, as far as it has them.
fn flawed_line(tag: Tag, flaw: Flaw) -> [&'static str; 4] {
    let mark = mark(tag);
    let name = name(tag.label());
    match flaw {
        Flaw::Empty => ["", "", "", "\n"],
        Flaw::NoTab => [mark, "", name, "\n"],
        Flaw::WrongMark => ["*", "\t", name, "\n"],
        Flaw::UpperCase => [mark, "\t", "A", "\n"],
        Flaw::NoName => [mark, "\t", "", "\n"],
        Flaw::LongName => [mark, "\t", "abcdefghijklmnopq", "\n"],
        Flaw::NoNewline => [mark, "\t", name, ""],
        Flaw::UnknownName => [mark, "\t", "z", "\n"],
    }
}

/// The bytes of a document, a tag in each; labels are below 128.
pub fn packed(heap: Global, tags: &[Tag]) -> Result<Vec<u8>, AllocError> {
    tags.iter()
        .map(|tag| match tag {
            Tag::Open(label) => *label & 0x7f,
            Tag::Close(label) => *label | 0x80,
        })
        .collect(heap)
}
