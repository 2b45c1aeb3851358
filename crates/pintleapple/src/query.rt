//! A query: labels and the table that is run.
use crate::options::Query;
use crate::stop::Stop;
use formats::label_line::read_labels;
use formats::table_text::{TableText, read_table};
use paths::path::Path;
use std::fs;

/// The query's labels and table.
pub fn load<'a>(rt: &HostRuntime, query: Query<'a>) -> Result<TableText, Stop<'a>> {
    match query {
        Query::Table(path) => {
            let text = read_file(rt, path)?;
            read_table(text.as_slice()).map_err(|refusal| Stop::Text { path, refusal })
        }
        Query::Path { labels, path } => load_path(rt, labels, path),
    }
}

// The labels of a label line, and the table of a path over them.
fn load_path<'a>(rt: &HostRuntime, file: &'a str, path: &'a str) -> Result<TableText, Stop<'a>> {
    let text = read_file(rt, file)?;
    let labels = read_labels(text.as_slice()).map_err(|refusal| Stop::Text {
        path: file,
        refusal,
    })?;
    let table = Path::read(&labels, path.as_bytes())
        .and_then(|steps| steps.table(&labels))
        .map_err(|refusal| Stop::Path { path, refusal })?;
    Ok(TableText { labels, table })
}

/// The bytes of a file.
pub fn read_file<'a>(rt: &HostRuntime, path: &'a str) -> Result<Vec<u8>, Stop<'a>> {
    fs::read(rt, path).map_err(|error| Stop::Unreadable { path, error })
}
