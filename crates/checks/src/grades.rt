//! Grades, minimal tables and the lists that show a clash.
use base::table::Table;
use formats::label_line::read_labels;
use formats::table_text::read_table;
use grading::clash::clash_of;
use grading::grade::{Grade, Graded};
use grading::minimise::minimise;
use paths::path::Path;
use std::test::Fail;
use text::labels::Labels;
use text::refusal::Refusal;

// Paths over the labels a, b and c, each with its grade and the number of its components.
const PATHS: [(&[u8], Grade, u8); 6] = [
    (b"/a//b", Grade::Registerless, 3),
    (b"//*", Grade::Registerless, 2),
    (b"/a/b", Grade::Stackless, 4),
    (b"//a//b", Grade::Stackless, 2),
    (b"//a/b", Grade::Neither, 1),
    (b"//a/*/*/*", Grade::Neither, 1),
];

fn table_of(labels: &Labels, text: &[u8]) -> Result<Table, Refusal> {
    Path::read(labels, text)?.table(labels)
}

#[test]
fn paths_have_their_grades(rt: HostRuntime) -> Result<(), Fail> {
    let labels = read_labels(b"labels\ta\tb\tc\n")?;
    for (text, grade, components) in PATHS {
        let graded = Graded::of(&table_of(&labels, text)?);
        assert_eq!(rt; (graded.grade, graded.components), (grade, components));
    }
    Ok(())
}

#[test]
fn a_minimal_table_has_no_idle_state(rt: HostRuntime) -> Result<(), Fail> {
    let idle = read_table(b"labels\ta\nstates\t2\t0\nrow\t0\tyes\t0\nrow\t1\tno\t0\n")?;
    assert_eq!(rt; minimise(&idle.table).states(), 1);
    let backwards = read_table(
        b"labels\ta\nstates\t3\t2\nrow\t0\tyes\t1\nrow\t1\tno\t0\nrow\t2\tyes\t1\n",
    )?;
    let minimal = minimise(&backwards.table);
    assert_eq!(rt; (minimal.states(), minimal.start()), (2, 0));
    assert_eq!(rt;
        (minimal.target(0, 0), minimal.accepts(0)),
        (Some(1), Some(true))
    );
    Ok(())
}

// Behind `/a` a b is wanted and behind `/b` none, and an a leads both to where nothing is.
#[test]
fn a_clash_is_shown_by_short_lists(rt: HostRuntime) -> Result<(), Fail> {
    let labels = read_labels(b"labels\ta\tb\tc\n")?;
    let graded = Graded::of(&table_of(&labels, b"/a/b")?);
    let clash = clash_of(&graded.table).ok_or("no clash")?;
    assert_eq!(rt; clash.first.labels(), [0].as_slice());
    assert_eq!(rt; clash.second.labels(), [1].as_slice());
    assert_eq!(rt; clash.meet.labels(), [0].as_slice());
    assert_eq!(rt; clash.apart.labels(), [1].as_slice());
    let registerless = Graded::of(&table_of(&labels, b"/a//b")?);
    assert!(rt; clash_of(&registerless.table).is_none());
    Ok(())
}
