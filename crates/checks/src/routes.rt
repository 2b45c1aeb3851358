//! Paths and their tables.
use crate::numbers::refused;
use formats::label_line::read_labels;
use paths::path::Path;
use std::test::Fail;
use text::labels::Labels;
use text::refusal::Refusal;

// Path texts over the labels a, b and c, each with the number of its refusal.
const PATHS: [(&[u8], Option<u8>); 15] = [
    (b"", Some(7)),
    (&[b'/'; 201], Some(7)),
    (&[b'/'; 200], Some(8)),
    (b"a", Some(8)),
    (b"/", Some(8)),
    (b"//", Some(8)),
    (b"/a/", Some(8)),
    (b"/a///b", Some(8)),
    (b"/a/d", Some(8)),
    (b"/a/B", Some(8)),
    (b"/a/**", Some(8)),
    (b"/a/a/a/a/a/a/a/a/a/a/a/a/a/a/a/a", Some(9)),
    (b"//a/*/*/*/*/*", Some(10)),
    (b"/a/a/a/a/a/a/a/a/a/a/a/a/a/a/a", None),
    (b"/a//b/*", None),
];

// How many states the path's table has.
fn states_of(labels: &Labels, text: &[u8]) -> Result<u8, Refusal> {
    Ok(Path::read(labels, text)?.table(labels)?.states())
}

#[test]
fn paths_are_refused_in_order(rt: HostRuntime) -> Result<(), Fail> {
    let labels = read_labels(b"labels\ta\tb\tc\n")?;
    for (text, number) in PATHS {
        assert_eq!(rt; refused(states_of(&labels, text)), number);
    }
    assert_eq!(rt; states_of(&labels, b"/a//b")?, 4);
    assert_eq!(rt; states_of(&labels, b"//a/b")?, 3);
    Ok(())
}
