//! Runs of the selectors that need no stack.
use crate::numbers::refused;
use base::packed::PackedSource;
use base::run::{Drained, Run, Totals};
use base::selector::Selector;
use base::table::Table;
use formats::label_line::read_labels;
use grading::begun::{Begun, begin};
use grading::registerless::RegisterlessSelector;
use grading::stackless::StacklessSelector;
use paths::path::Path;
use std::test::Fail;
use text::refusal::Refusal;

fn table_of(text: &[u8]) -> Result<Table, Refusal> {
    let labels = read_labels(b"labels\ta\tb\tc\n")?;
    Path::read(&labels, text)?.table(&labels)
}

// What a run over the bytes answers and amounts to, and its list of four places, with a 9 where nothing was put.
#[derive(Clone, Copy)]
struct Reading {
    list: [u32; 4],
    drained: Drained,
    totals: Totals,
}

fn read<S: Selector + Drop>(table: &Table, selector: S, bytes: &[u8]) -> Result<Reading, Refusal> {
    let mut source = PackedSource::new(bytes)?;
    let mut list = [9; 4];
    let Begun { graded: _, mut run } = begin(table, selector, 65_535);
    let drained = run.drain(&mut source, &mut list);
    let (totals, selector) = run.end();
    drop(selector);
    Ok(Reading {
        list,
        drained,
        totals,
    })
}

// +a +a -a +b: going back to the start, which is not internal, would miss the b.
#[test]
fn a_registerless_run_keeps_its_place(rt: HostRuntime) -> Result<(), Fail> {
    let table = table_of(b"/a//b")?;
    let Reading {
        list,
        drained,
        totals,
    } = read(&table, RegisterlessSelector::new(&table)?, &[0, 0, 0x80, 1])?;
    assert_eq!(rt; (drained.picks, list), (1, [2, 9, 9, 9]));
    assert_eq!(rt; (totals.openings, totals.whole), (3, false));
    Ok(())
}

// +a +c -c +b +c -c -b +b -b -a
#[test]
fn a_stackless_run_keeps_its_place(rt: HostRuntime) -> Result<(), Fail> {
    let table = table_of(b"/a/b")?;
    let selector = StacklessSelector::new(&table)?;
    assert_eq!(rt; selector.notes_needed(), 3);
    let tags = [0, 2, 0x82, 1, 2, 0x82, 0x81, 1, 0x81, 0x80];
    let Reading {
        list,
        drained,
        totals,
    } = read(&table, selector, &tags)?;
    assert_eq!(rt; (drained.picks, list), (2, [2, 4, 9, 9]));
    assert_eq!(rt; (totals.openings, totals.whole), (5, true));
    Ok(())
}

#[test]
fn selectors_that_do_not_serve_are_refused(rt: HostRuntime) -> Result<(), Fail> {
    assert_eq!(rt;
        refused(RegisterlessSelector::new(&table_of(b"/a/b")?)),
        Some(13)
    );
    assert_eq!(rt;
        refused(RegisterlessSelector::new(&table_of(b"//a/b")?)),
        Some(13)
    );
    assert_eq!(rt;
        refused(StacklessSelector::new(&table_of(b"//a/b")?)),
        Some(14)
    );
    assert_eq!(rt; refused(StacklessSelector::new(&table_of(b"/a//b")?)), None);
    Ok(())
}

// At the full depth an opening leaves the selector unmoved, and so does a closing at depth 0.
#[test]
fn limits_fit_the_carry(rt: HostRuntime) -> Result<(), Fail> {
    let table = table_of(b"/a/b")?;
    let mut fit = Run::begin(StacklessSelector::new(&table)?, 65_535);
    let taken = fit.open(0).is_ok();
    let _ = fit.end();
    let mut unfit = Run::begin(StacklessSelector::new(&table)?, 65_536);
    let answer = unfit.open(0);
    let _ = unfit.end();
    assert!(rt; taken);
    assert_eq!(rt; refused(answer), Some(15));
    Ok(())
}
