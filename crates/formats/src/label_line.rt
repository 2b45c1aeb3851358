//! The label line: the word `labels` and then the names, numbered from 0.
ghost use Rattle.std.specs.Prelude.{◌≡◌, ◌==◌, ◌<◌, ◌≤◌, true, length, if◌then◌else◌, Ok, Err, Decides, MatchResult};
ghost use Rattle.text.specs.declared.refusal.Refusal.TheVariants.{BadName, NameTwice};
ghost use Rattle.text.specs.Labelled.{names_of, read_names};
ghost use Rattle.text.specs.NameLists.{all_names, twice};
ghost use Rattle.text.specs.Pieces.{split, listed};
ghost use Rattle.formats.specs.LabelLine.{names_in, Unheaded, Accepted, Refused};
ghost use Rattle.formats.specs.Reading.{FirstLine};

use crate::fields::split_once;
use text::MAX_BYTES;
use text::labels::{Labels, MAX_LABELS};
use text::names::is_name;
use text::refusal::Refusal;

/// The labels of a label line that stands by itself.
pub fn read_labels(text: &[u8]) -> Result<Labels, Refusal>
    ensures { MatchResult result (Accepted text.now) (Refused text.now) }
{
    let (line, rest) = first_line(text)?;
    let labels = read_line(line)?;
    if rest.is_empty() {
        Ok(labels)
    } else {
        Err(Refusal::Row)
    }
}

/// The first line of a text without its newline, and the lines after it.
pub(crate) fn first_line(text: &[u8]) -> Result<(&[u8], &[u8]), Refusal>
    ensures { MatchResult result (λ p. FirstLine text.now p.0.now p.1.now) (Unheaded text.now) }
{
    if text.len() > MAX_BYTES {
        return Err(Refusal::TooLong);
    }
    if !text.ends_with(b"\n") {
        return Err(Refusal::NoNewline);
    }
    split_once(b'\n', text).ok_or(Refusal::NoNewline)
}

/// The labels of a label line without its newline.
pub(crate) fn read_line(line: &[u8]) -> Result<Labels, Refusal>
    ensures { read_names result ≡ names_in (split 9 line.now) }
{
    let names = match line.strip_prefix(b"labels") {
        Some([b'\t', names @ ..]) => names,
        Some([]) => return Err(Refusal::NameCount),
        _ => return Err(Refusal::NotLabels),
    };
    if !all_names(names) {
        return Err(Refusal::BadName);
    }
    if has_more_fields(names, MAX_LABELS) {
        return Err(Refusal::NameCount);
    }
    push_names(names)
}

// Whether each field is a name by the rule.
fn all_names(fields: &[u8]) -> bool
    ensures { result ≡ all_names (listed (split 9 fields.now)) }
{
    fields.split(is_tab).all(is_name)
}

// Whether there are more fields than so many; no field past the first of those is looked at.
fn has_more_fields(fields: &[u8], count: usize) -> bool
    ensures { Decides result (count < length (listed (split 9 fields.now))) }
{
    fields.split(is_tab).nth(count).is_some()
}

// The labels with these names, unless a name stands twice.
fn push_names(names: &[u8]) -> Result<Labels, Refusal>
    requires { (all_names (listed (split 9 names.now)) ≡ true) × (length (listed (split 9 names.now)) ≤ 16) }
    ensures { MatchResult result (λ l. names_of l ≡ listed (split 9 names.now)) (λ why. (why ≡ NameTwice) × (twice (listed (split 9 names.now)) ≡ true)) }
{
    // `split` gives one field at least.
    let mut fields = names.split(is_tab);
    let Some(first) = fields.next() else {
        unreachable!()
    };
    let mut labels = Labels::new(first)?;
    for name in fields {
        labels.push(name)?;
    }
    Ok(labels)
}

fn is_tab(byte: &u8) -> bool
    ensures { result ≡ (byte.now == 9) }
{
    *byte == b'\t'
}
