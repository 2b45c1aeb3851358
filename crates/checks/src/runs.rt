//! Runs of the stack selector.
use crate::numbers::refused;
use base::packed::PackedSource;
use base::run::{Cause, Drained, Opened, Run, Totals};
use base::selector::Selector;
use base::stack_selector::StackSelector;
use base::table::{Row, Table};
use std::test::Fail;
use text::refusal::Refusal;

// Every 1 below a 0: state 1 once a 0 is open, state 2 at a 1 below it.
fn below() -> Result<Table, Refusal> {
    let mut rows = [Row {
        targets: [0; 16],
        accepts: false,
    }; 32];
    rows[0].targets[0] = 1;
    rows[1].targets[0] = 1;
    rows[1].targets[1] = 2;
    rows[2].targets[0] = 1;
    rows[2].targets[1] = 2;
    rows[2].accepts = true;
    Table::new(2, 3, 0, rows)
}

// A run must be ended, so each test ends its run before it looks at the answers.
#[test]
fn a_run_answers_and_counts(rt: HostRuntime) -> Result<(), Fail> {
    let table = below()?;
    let mut bytes = [9; 4];
    let mut run = Run::begin(StackSelector::new(&table, &mut bytes), 4);
    let opened = [run.open(0), run.open(1)];
    let left = [run.close(1), run.close(0)];
    let after_root = run.open(0);
    let nothing_open = run.close(0);
    let (totals, selector) = run.end();
    let after = selector.into_bytes();
    let root = Opened {
        element: 0,
        picked: false,
    };
    let child = Opened {
        element: 1,
        picked: true,
    };
    assert_eq!(rt; opened, [Ok(root), Ok(child)]);
    assert_eq!(rt; left, [Ok(1), Ok(0)]);
    assert_eq!(rt; after_root, Err(Refusal::AfterRoot));
    assert_eq!(rt; nothing_open, Err(Refusal::NothingOpen));
    let expected = Totals {
        openings: 2,
        picks: 1,
        whole: true,
    };
    assert_eq!(rt; totals, expected);
    // state 0 was stored below the root and state 1 below its child; nothing else was written
    assert!(rt; matches!(after, [0, 1, 9, 9]));
    Ok(())
}

// The number that a first opening is refused with, under a limit and with three stack bytes.
fn first_refused(limit: u32, label: u8) -> Result<Option<u8>, Refusal> {
    let table = below()?;
    let mut bytes = [0; 3];
    let mut run = Run::begin(StackSelector::new(&table, &mut bytes), limit);
    let answer = run.open(label);
    let (_, selector) = run.end();
    drop(selector);
    Ok(refused(answer))
}

#[test]
fn limits_and_labels_are_refused(rt: HostRuntime) -> Result<(), Fail> {
    assert_eq!(rt; first_refused(0, 9)?, Some(15));
    assert_eq!(rt; first_refused(4, 0)?, Some(15));
    assert_eq!(rt; first_refused(65_536, 0)?, Some(15));
    assert_eq!(rt; first_refused(3, 2)?, Some(16));
    assert_eq!(rt; first_refused(3, 1)?, None);
    Ok(())
}

// Drains packed bytes with three stack bytes and a limit of 2.
fn drained(tags: &[u8], list: &mut [u32]) -> Result<(Drained, Totals), Refusal> {
    let table = below()?;
    let mut bytes = [0; 3];
    let mut source = PackedSource::new(tags)?;
    let mut run = Run::begin(StackSelector::new(&table, &mut bytes), 2);
    let drained = run.drain(&mut source, list);
    let (totals, selector) = run.end();
    drop(selector);
    Ok((drained, totals))
}

#[test]
fn a_drain_ends_at_a_refusal(rt: HostRuntime) -> Result<(), Fail> {
    let mut list = [7; 3];
    let answer = drained(&[0x00, 0x01, 0x81, 0x01, 0x00, 0x80], &mut list)?;
    let expected = Drained {
        offered: 5,
        picks: 2,
        end: Err(Cause::Refused {
            refusal: Refusal::TooDeep,
            tag: 5,
        }),
    };
    let totals = Totals {
        openings: 3,
        picks: 2,
        whole: false,
    };
    assert_eq!(rt; answer, (expected, totals));
    assert_eq!(rt; list, [1, 2, 7]);
    Ok(())
}

#[test]
fn a_short_list_loses_no_count(rt: HostRuntime) -> Result<(), Fail> {
    let mut list = [7; 1];
    let answer = drained(&[0x00, 0x01, 0x81, 0x01, 0x81, 0x80], &mut list)?;
    let expected = Drained {
        offered: 6,
        picks: 2,
        end: Ok(()),
    };
    let totals = Totals {
        openings: 3,
        picks: 2,
        whole: true,
    };
    assert_eq!(rt; answer, (expected, totals));
    assert_eq!(rt; list, [1]);
    Ok(())
}

#[test]
fn the_millionth_opening_is_the_last(rt: HostRuntime) -> Result<(), Fail> {
    let table = below()?;
    let mut bytes = [0; 3];
    let mut run = Run::begin(StackSelector::new(&table, &mut bytes), 3);
    let _ = run.open(0);
    for _ in 0..999_999 {
        let _ = run.open(1);
        let _ = run.close(1);
    }
    let last = run.open(1);
    let (totals, selector) = run.end();
    drop(selector);
    assert_eq!(rt; last, Err(Refusal::TooMany));
    let expected = Totals {
        openings: 1_000_000,
        picks: 999_999,
        whole: false,
    };
    assert_eq!(rt; totals, expected);
    Ok(())
}
