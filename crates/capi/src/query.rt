//! The table of a query, from its texts.
ghost use Rattle.capi.specs.Queries.{OfText, OfPath};

use base::table::Table;
use formats::label_line::read_labels;
use formats::table_text::read_table;
use paths::path::Path;
use text::refusal::Refusal;

// The table of a table text.
pub(crate) fn of_text(text: &[u8]) -> Result<Table, Refusal>
    ensures { OfText text.now result }
{
    let both = read_table(text)?;
    Ok(both.table)
}

// The table of a path over the names of a label line.
pub(crate) fn of_path(labels: &[u8], path: &[u8]) -> Result<Table, Refusal>
    ensures { OfPath labels.now path.now result }
{
    let labels = read_labels(labels)?;
    let path = Path::read(&labels, path)?;
    path.table(&labels)
}
