//! pintleapple: picks elements out of a document while it is read, tag by tag.
#![tactic(auto)]

mod grade;
mod options;
mod outcome;
mod pick;
mod query;
mod report;
mod stop;

use crate::options::Command;
use crate::outcome::Outcome;
use crate::stop::Stop;
use std::env;
use std::process::ExitCode;

const USAGE: &str =
    "usage: pintleapple pick --labels LABELS --path PATH [--packed] [--limit N] DOCUMENT
       pintleapple pick --table TABLE [--packed] [--limit N] DOCUMENT

Reads a document, picks the elements whose path the query accepts, and prints
what it did. The query is a path over labels, or a table.

  --labels LABELS  a text of one label line
  --path PATH      steps as in //hold//air: `/` or `//`, and a name or `*`
  --table TABLE    the table text: a label line, a `states` line and rows
  --packed         the document is packed bytes, not tag lines
  --limit N        refuse openings at depth N; else the largest that fits

examples:
  pintleapple pick --labels roast.labels --path //hold//air roast.tags
  pintleapple pick --table hold-air.table --limit 12 roast.tags
  pintleapple pick --table hold-air.table --packed roast.bin";

fn main(rt: HostRuntime) -> anyhow::Result<ExitCode> {
    let words: Vec<String> = env::args(&rt)?.skip(1).collect(rt.alloc())?;
    match run(&rt, words.as_slice()) {
        Ok(outcome) => Ok(outcome.into()),
        Err(Stop::System(error)) => Err(error),
        Err(stop) => {
            eprintln!(&rt; "{stop}")?;
            Ok(ExitCode::FAILURE)
        }
    }
}

fn run<'a>(rt: &HostRuntime, words: &'a [String]) -> Result<Outcome, Stop<'a>> {
    match Command::parse(words).ok_or(Stop::Words)? {
        Command::Help => println!(rt; "{USAGE}")?,
        Command::Pick(options) => return pick::pick(rt, options),
        Command::Grade(query) => grade::grade(rt, query)?,
    }
    Ok(Outcome::Sound)
}
