//! What the program prints.
use automata::tag::Tag;
use base::run::{Cause, Totals};
use base::source::{Fault, TagSource};
use base::table::Table;
use choosing::kind::SelectorKind;
use grading::clash::Clash;
use grading::grade::Graded;
use std::alloc::AllocError;
use std::str::from_utf8;
use std::{fmt, io};
use text::labels::Labels;

// A list of labels as a path of names.
#[derive(Clone, Copy)]
struct Names<'a> {
    labels: &'a Labels,
    path: &'a [u8],
}

impl fmt::Display for Names<'_> {
    fn fmt<W: fmt::Write>(&self, f: &mut fmt::Formatter<W>) -> fmt::Result {
        for label in self.path {
            // a name is text by its rule
            let name = self
                .labels
                .name(*label)
                .and_then(|name| from_utf8(name).ok());
            write!(f, "/{}", name.unwrap_or("?"))?;
        }
        Ok(())
    }
}

/// Prints why a drain stopped before a clean end, and tells the rule.
pub fn cause(rt: &HostRuntime, path: &str, cause: Cause) -> io::Result<()> {
    let (word, refusal, unit, at) = match cause {
        Cause::Fault(Fault { refusal, line }) => ("fault", refusal, "line", line),
        Cause::Refused { refusal, tag } => ("refused", refusal, "tag", tag),
    };
    let number = u8::from(refusal);
    println!(rt; "{word}\t{number}\t{unit}\t{at}")?;
    eprintln!(rt; "refused {number}: {path}, {unit} {at}: {refusal}")
}

pub fn totals(rt: &HostRuntime, totals: Totals) -> io::Result<()> {
    println!(rt; "openings\t{}", totals.openings)?;
    println!(rt; "picks\t{}", totals.picks)?;
    println!(rt; "whole\t{}", if totals.whole { "yes" } else { "no" })
}

/// Prints the selector's name, and a line for each picked element in opening order: its number, and its path of names as
/// the tags give it.
pub fn picks<T: TagSource>(
    rt: &HostRuntime,
    selector: SelectorKind,
    labels: &Labels,
    source: &mut T,
    picks: &[u32],
) -> anyhow::Result<()> {
    println!(rt; "selector\t{selector}")?;
    let mut picks = picks.iter().copied().peekable();
    let mut path = Vec::new(rt.alloc());
    let mut element: u32 = 0;
    while picks.peek().is_some()
        && let Ok(Some(tag)) = source.next()
    {
        match tag {
            Tag::Open(label) => {
                // not by an `io::Error`, whose message is another one
                path.push(label).map_err(|_| AllocError)?;
                if picks.next_if_eq(&element).is_some() {
                    let path = path.as_slice();
                    println!(rt; "pick\t{element}\t{}", Names { labels, path })?;
                }
                element = element.saturating_add(1);
            }
            Tag::Close(_) => {
                let _ = path.pop();
            }
        }
    }
    Ok(())
}

/// Prints how many states the table and its minimal table have, the grade, and how many components there are.
pub fn grade(rt: &HostRuntime, table: &Table, graded: &Graded) -> io::Result<()> {
    println!(rt; "states\t{}\t{}", table.states(), graded.table.states())?;
    println!(rt; "grade\t{}", graded.grade)?;
    println!(rt; "components\t{}", graded.components)
}

/// Prints why the registerless grade is denied: the lists that lead to two states, the one by which they meet, and the one
/// that tells them apart.
pub fn clash(rt: &HostRuntime, labels: &Labels, clash: &Clash) -> io::Result<()> {
    let lists = [
        ("first", &clash.first),
        ("second", &clash.second),
        ("meet", &clash.meet),
        ("apart", &clash.apart),
    ];
    for (word, list) in lists {
        let path = list.labels();
        println!(rt; "{word}\t{}", Names { labels, path })?;
    }
    Ok(())
}

/// Prints the bytes of memory that a selector takes: of its own, and for each level of open elements.
pub fn memory(
    rt: &HostRuntime,
    selector: SelectorKind,
    own: usize,
    level: usize,
) -> io::Result<()> {
    println!(rt; "bytes\t{selector}\t{own}\t{level}")
}

/// Prints how many notes the stackless selector needs.
pub fn notes(rt: &HostRuntime, needed: u8) -> io::Result<()> {
    println!(rt; "notes\t{needed}")
}
