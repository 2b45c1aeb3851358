//! Tag lines and packed bytes.
use crate::numbers::refused;
use automata::tag::Tag;
use base::lines::LineSource;
use base::packed::PackedSource;
use base::source::{Fault, TagSource};
use std::test::Fail;
use text::labels::Labels;
use text::refusal::Refusal;

// The source gives these, one by one.
fn gives<T: TagSource>(source: &mut T, wanted: &[Result<Option<Tag>, Fault>]) -> bool {
    wanted.iter().all(|next| source.next() == *next)
}

#[test]
fn lines_give_tags_and_then_the_fault(rt: HostRuntime) -> Result<(), Fail> {
    let labels = Labels::new(b"air")?;
    let fault = Err(Fault {
        refusal: Refusal::UnknownName,
        line: 3,
    });
    let wanted = [
        Ok(Some(Tag::Open(0))),
        Ok(Some(Tag::Close(0))),
        fault,
        fault,
    ];
    let mut source = LineSource::new(&labels, b"+\tair\n-\tair\n+\tqux\n-\tair\n")?;
    assert!(rt; gives(&mut source, &wanted));
    Ok(())
}

// Texts, each with the number of the fault in its first line.
const LINES: [(&[u8], Option<u8>); 9] = [
    (b"", None),
    (b"+\ta\n", None),
    (b"+\ta", Some(21)),
    (b"\n", Some(21)),
    (b"+a\n", Some(21)),
    (b"*\ta\n", Some(21)),
    (b"+\tA\n", Some(21)),
    (b"+\t\n", Some(21)),
    (b"+\tb\n", Some(22)),
];

// The number of the fault in the first line.
fn fault_of<'a>(labels: &'a Labels, text: &'a [u8]) -> Result<Option<u8>, Refusal> {
    let mut source = LineSource::new(labels, text)?;
    match source.next() {
        Err(Fault { refusal, line: 1 }) => Ok(Some(refusal.into())),
        _ => Ok(None),
    }
}

#[test]
fn lines_are_faulty(rt: HostRuntime) -> Result<(), Fail> {
    let labels = Labels::new(b"a")?;
    for (text, number) in LINES {
        assert_eq!(rt; fault_of(&labels, text)?, number);
    }
    assert_eq!(rt; refused(LineSource::new(&labels, &[b'a'; 65_537])), Some(1));
    Ok(())
}

#[test]
fn bytes_give_tags(rt: HostRuntime) -> Result<(), Fail> {
    let wanted = [
        Ok(Some(Tag::Open(2))),
        Ok(Some(Tag::Close(127))),
        Ok(None),
        Ok(None),
    ];
    let mut source = PackedSource::new(&[0x02, 0xff])?;
    assert!(rt; gives(&mut source, &wanted));
    assert_eq!(rt; refused(PackedSource::new(&[0; 65_537])), Some(1));
    Ok(())
}
