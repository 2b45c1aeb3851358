//! One tag line: a mark, a tab and a name.
ghost use Rattle.std.specs.Prelude.{◌≡◌};
ghost use Rattle.text.specs.Labelled.{names_of};
ghost use Rattle.base.specs.TagLines.{marked, marked_by, label_of, tag_of};

use automata::tag::Tag;
use text::labels::Labels;
use text::names::is_name;
use text::refusal::Refusal;

/// The tag that the line's mark and its name make; none where it does not begin with a mark and a tab.
pub fn named_tag<'a>(line: &'a [u8]) -> Option<Tag<&'a [u8]>>
    ensures { marked_by result ≡ marked line.now }
{
    match line {
        [b'+', b'\t', name @ ..] => Some(Tag::Open(name)),
        [b'-', b'\t', name @ ..] => Some(Tag::Close(name)),
        _ => None,
    }
}

// The number of a name.
fn label_of(labels: &Labels, name: &[u8]) -> Result<u8, Refusal>
    ensures { result ≡ label_of (names_of labels.now) name.now }
{
    if !is_name(name) {
        return Err(Refusal::TagLine);
    }
    labels.find(name).ok_or(Refusal::UnknownName)
}

/// The tag of a line without its newline.
pub fn tag_of(labels: &Labels, line: &[u8]) -> Result<Tag, Refusal>
    ensures { result ≡ tag_of (names_of labels.now) line.now }
{
    match named_tag(line) {
        Some(Tag::Open(name)) => Ok(Tag::Open(label_of(labels, name)?)),
        Some(Tag::Close(name)) => Ok(Tag::Close(label_of(labels, name)?)),
        None => Err(Refusal::TagLine),
    }
}
