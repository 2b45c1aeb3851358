//! The rows of a table text.
ghost use Rattle.std.specs.Prelude.{◌≡◌, length, MatchOption};
ghost use Rattle.text.specs.Labelled.{names_of};
ghost use Rattle.formats.specs.Forms.{answer_form, targets_form, row_form, rows_form, Stored, HasRow, Filled};
ghost use Rattle.formats.specs.Reading.{Found, Missing};

use crate::fields::take_number;
use crate::states::States;
use base::table::Row;
use text::labels::Labels;

/// The rows of so many states, and what comes after them.
pub(crate) fn take_rows<'a>(
    text: &'a [u8],
    labels: &Labels,
    states: States,
) -> Option<([Row; 32], &'a [u8])>
    ensures { MatchOption result (Missing (rows_form (length (names_of labels.now)) states.count) text.now) (λ p. Found (rows_form (length (names_of labels.now)) states.count) text.now (Filled (length (names_of labels.now)) states.count p.0) p.1.now) }
{
    let mut rows = [Row {
        targets: [0; 16],
        accepts: false,
    }; 32];
    let mut left = text;
    for (state, row) in rows[..states.count as usize].iter_mut().enumerate() {
        (*row, left) = take_row(left, labels, state as u8)?;
    }
    Some((rows, left))
}

// The row of this state, and what comes after it.
fn take_row<'a>(text: &'a [u8], labels: &Labels, state: u8) -> Option<(Row, &'a [u8])>
    ensures { MatchOption result (Missing (row_form (length (names_of labels.now)) state) text.now) (λ p. Found (row_form (length (names_of labels.now)) state) text.now (HasRow (length (names_of labels.now)) p.0) p.1.now) }
{
    let row = text.strip_prefix(b"row\t")?;
    let (number, after) = take_number(b'\t', row)?;
    if number != state {
        return None;
    }
    let (accepts, fields) = take_answer(after)?;
    let (targets, rest) = take_targets(fields, labels)?;
    Some((Row { targets, accepts }, rest))
}

// Yes or no, and what comes after it and its tab.
fn take_answer(text: &[u8]) -> Option<(bool, &[u8])>
    ensures { MatchOption result (Missing answer_form text.now) (λ p. Found answer_form text.now (λ y. y ≡ p.0) p.1.now) }
{
    if let Some(rest) = text.strip_prefix(b"yes\t") {
        return Some((true, rest));
    }
    let rest = text.strip_prefix(b"no\t")?;
    Some((false, rest))
}

// The targets of a row by label, and what comes after their line.
fn take_targets<'a>(text: &'a [u8], labels: &Labels) -> Option<([u8; 16], &'a [u8])>
    ensures { MatchOption result (Missing (targets_form (length (names_of labels.now))) text.now) (λ p. Found (targets_form (length (names_of labels.now))) text.now (Stored (length (names_of labels.now)) p.0) p.1.now) }
{
    let count = labels.count() as usize;
    let mut targets = [0; 16];
    let mut left = text;
    for (label, target) in targets[..count].iter_mut().enumerate() {
        let end = if label + 1 < count { b'\t' } else { b'\n' };
        (*target, left) = take_number(end, left)?;
    }
    Some((targets, left))
}
