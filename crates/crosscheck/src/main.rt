//! crosscheck: holds the library against a second evaluator, over generated queries and documents.
#![tactic(auto)]

mod answers;
mod book;
mod checker;
mod compare;
mod damage;
mod document;
mod fixed;
mod generate;
mod random;
mod rules;
mod steps;
mod sums;
mod survey;
mod tally;
mod wanted;
mod ways;
mod writing;

use crate::answers::Grade;
use crate::steps::Step;
use crate::survey::Survey;
use crate::writing::label_line;
use anyhow::ensure;
use formats::label_line::read_labels;
use std::alloc::Global;
use text::labels::Labels;

const SEED: u64 = 20_260_729;

// How often documents and queries are generated over each number of labels.
const ROUNDS: u32 = 3;

// Compares everything, and prints the counts.
fn main(rt: HostRuntime) -> anyhow::Result<()> {
    let heap = rt.alloc();
    let mut survey = Survey::new(rt, SEED);
    for _ in 0..ROUNDS {
        for labels in 1..=5 {
            let names = names(heap, labels)?;
            // over a, b and c also the classic paths
            if labels == 3 {
                survey.hold_labels(&names, &classics())?;
            } else {
                survey.hold_labels(&names, &[])?;
            }
        }
    }
    let checker = &mut survey.checker;
    let names = names(heap, 2)?;
    checker.hold_limits(&names)?;
    checker.hold_million(&names)?;
    checker.tally.print(&checker.rt)?;
    ensure!(
        checker.tally.differences == 0,
        "the library differs from the second evaluator"
    );
    Ok(())
}

// The first labels, read from their line.
fn names(heap: Global, labels: u8) -> anyhow::Result<Labels> {
    Ok(read_labels(label_line(heap, labels)?.as_bytes())?)
}

// Over the labels a, b and c: `/a//b`, `/a/b`, `//a//b` and `//a/b`, with their grades.
fn classics() -> [([Step; 2], Grade); 4] {
    [
        ([Step::child(0), Step::descendant(1)], Grade::Registerless),
        ([Step::child(0), Step::child(1)], Grade::Stackless),
        ([Step::descendant(0), Step::descendant(1)], Grade::Stackless),
        ([Step::descendant(0), Step::child(1)], Grade::Neither),
    ]
}
