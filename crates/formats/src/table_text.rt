//! The table text: the label line, the states line, and then a row for each state.
ghost use Rattle.std.specs.Prelude.{MatchResult};
ghost use Rattle.formats.specs.TableText.{Accepted, Refused};

use crate::label_line::{first_line, read_line};
use crate::rows::take_rows;
use crate::states::take_states;
use base::table::Table;
use text::labels::Labels;
use text::refusal::Refusal;

/// A table, and the labels that it goes by.
#[derive(Clone, Copy)]
pub struct TableText {
    pub labels: Labels,
    pub table: Table,
}

/// The labels and the table of a table text.
pub fn read_table(text: &[u8]) -> Result<TableText, Refusal>
    ensures { MatchResult result (Accepted text.now) (Refused text.now) }
{
    let (line, lines) = first_line(text)?;
    let labels = read_line(line)?;
    let (states, left) = take_states(lines).ok_or(Refusal::StatesLine)?;
    let (rows, rest) = take_rows(left, &labels, states).ok_or(Refusal::Row)?;
    if !rest.is_empty() {
        return Err(Refusal::Row);
    }
    let table = Table::new(labels.count(), states.count, states.start, rows)?;
    Ok(TableText { labels, table })
}
