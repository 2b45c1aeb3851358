//! Labels, tables and their texts.
use crate::numbers::refused;
use base::table::{Row, Table};
use formats::label_line::read_labels;
use formats::table_text::{TableText, read_table};
use std::test::Fail;
use text::labels::Labels;
use text::refusal::Refusal;

// Texts of labels, each with the number that it is refused with.
const LABEL_LINES: [(&[u8], Option<u8>); 11] = [
    (b"", Some(2)),
    (b"labels\ta", Some(2)),
    (b"label\tA\n", Some(3)),
    (b"labels\tA\tb\tb\n", Some(4)),
    (b"labels\ta\t\n", Some(4)),
    (b"labels\ta2345678901234567\n", Some(4)),
    (b"labels\n", Some(5)),
    (
        b"labels\ta\tb\tc\td\te\tf\tg\th\ti\tj\tk\tl\tm\tn\to\tp\tq\n",
        Some(5),
    ),
    (b"labels\ta\tb\ta\n", Some(6)),
    (b"labels\ta\n\n", Some(12)),
    (b"labels\ta\tb-2\n", None),
];

// Table texts likewise.
const TABLE_TEXTS: [(&[u8], Option<u8>); 18] = [
    (b"", Some(2)),
    (b"labels\ta\nstates\t1\t0\nrow\t0\tyes\t0", Some(2)),
    (b"states\t1\t0\n", Some(3)),
    (b"labels\ta\ta\n", Some(6)),
    (b"labels\ta\n", Some(11)),
    (b"labels\ta\nstates\t0\t0\n", Some(11)),
    (b"labels\ta\nstates\t33\t0\n", Some(11)),
    (b"labels\ta\nstates\t1\t1\nrow\t0\tyes\t0\n", Some(11)),
    (b"labels\ta\nstates\t01\t0\nrow\t0\tyes\t0\n", Some(11)),
    (b"labels\ta\nstates\t1\t0\t\nrow\t0\tyes\t0\n", Some(11)),
    (b"labels\ta\nstates\t1\t0\n", Some(12)),
    (b"labels\ta\nstates\t1\t0\nrow\t1\tyes\t0\n", Some(12)),
    (b"labels\ta\nstates\t1\t0\nrow\t0\tmaybe\t0\n", Some(12)),
    (b"labels\ta\nstates\t1\t0\nrow\t0\tyes\t1\n", Some(12)),
    (b"labels\ta\nstates\t1\t0\nrow\t0\tyes\n", Some(12)),
    (b"labels\ta\nstates\t1\t0\nrow\t0\tyes\t0\t0\n", Some(12)),
    (b"labels\ta\nstates\t1\t0\nrow\t0\tyes\t0\n\n", Some(12)),
    (b"labels\ta\nstates\t1\t0\nrow\t0\tyes\t0\n", None),
];

#[test]
fn label_lines_are_refused_in_order(rt: HostRuntime) {
    assert_eq!(rt; refused(read_labels(&[b'a'; 65_537])), Some(1));
    for (text, number) in LABEL_LINES {
        assert_eq!(rt; refused(read_labels(text)), number);
    }
}

#[test]
fn table_texts_are_refused_in_order(rt: HostRuntime) {
    assert_eq!(rt; refused(read_table(&[b'a'; 65_537])), Some(1));
    for (text, number) in TABLE_TEXTS {
        assert_eq!(rt; refused(read_table(text)), number);
    }
}

#[test]
fn labels_are_numbered_by_place(rt: HostRuntime) -> Result<(), Fail> {
    let labels = read_labels(b"labels\titem\tx-2\n")?;
    assert_eq!(rt; labels.count(), 2);
    assert_eq!(rt; labels.find(b"x-2"), Some(1));
    assert_eq!(rt; labels.find(b"x"), None);
    assert!(rt; labels.name(0) == Some(b"item"));
    assert!(rt; labels.name(2) == None);
    Ok(())
}

fn grown(second: &[u8]) -> Result<Labels, Refusal> {
    let mut labels = Labels::new(b"a")?;
    labels.push(second)?;
    Ok(labels)
}

#[test]
fn labels_grow_by_the_rules(rt: HostRuntime) {
    assert_eq!(rt; Labels::new(b"A").err(), Some(Refusal::BadName));
    assert_eq!(rt; grown(b"").err(), Some(Refusal::BadName));
    assert_eq!(rt; grown(b"a").err(), Some(Refusal::NameTwice));
    assert!(rt; grown(b"b").is_ok());
}

// Three states from state 1 on: a yes state after `air`.
#[test]
fn a_table_text_is_read(rt: HostRuntime) -> Result<(), Fail> {
    let text =
        b"labels\thold\tair\nstates\t3\t1\nrow\t0\tno\t1\t0\nrow\t1\tno\t1\t2\nrow\t2\tyes\t1\t2\n";
    let TableText { labels, table } = read_table(text)?;
    assert_eq!(rt; labels.find(b"air"), Some(1));
    assert_eq!(rt; (table.labels(), table.states(), table.start()), (2, 3, 1));
    assert_eq!(rt;
        (table.target(0, 1), table.target(1, 1)),
        (Some(0), Some(2))
    );
    assert_eq!(rt; (table.target(3, 0), table.target(0, 2)), (None, None));
    assert_eq!(rt;
        (table.accepts(2), table.accepts(1)),
        (Some(true), Some(false))
    );
    assert_eq!(rt; table.accepts(3), None);
    Ok(())
}

// Counts of labels and states, a start and one target for all, with the number of the refusal.
const PARTS: [([u8; 4], Option<u8>); 7] = [
    ([0, 0, 0, 9], Some(5)),
    ([17, 0, 0, 9], Some(5)),
    ([1, 0, 0, 9], Some(11)),
    ([1, 33, 0, 9], Some(11)),
    ([1, 2, 2, 9], Some(11)),
    ([1, 2, 1, 2], Some(12)),
    ([16, 32, 31, 31], None),
];

#[test]
fn parts_are_refused_in_order(rt: HostRuntime) {
    for ([labels, states, start, target], number) in PARTS {
        let row = Row {
            targets: [target; 16],
            accepts: true,
        };
        let table = Table::new(labels, states, start, [row; 32]);
        assert_eq!(rt; refused(table), number);
    }
}
