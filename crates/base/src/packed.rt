//! Tags packed into bytes.
ghost use Rattle.std.specs.Prelude.{◌≡◌};
ghost use Rattle.base.specs.Packed.{packed_tag, packed_holds, Starts};

use crate::source::{Fault, TagSource};
use automata::tag::Tag;
use text::MAX_BYTES;
use text::refusal::Refusal;

/// The bytes that are left: the low seven bits are the label, the high bit marks a closing.
#[derive(Drop)]
pub struct PackedSource<'a> {
    bytes: &'a [u8],
}

// The tag that a byte stands for. No `From`: neither type is this crate's.
fn unpacked(b: u8) -> Tag
    ensures { result ≡ packed_tag b }
{
    let label = b & 0x7f;
    if b < 0x80 {
        Tag::Open(label)
    } else {
        Tag::Close(label)
    }
}

impl<'a> PackedSource<'a> {
    /// The tags of the bytes; refuses more than 65,536.
    pub fn new(bytes: &'a [u8]) -> Result<PackedSource<'a>, Refusal>
        ensures { Starts bytes.now result }
    {
        if bytes.len() > MAX_BYTES {
            return Err(Refusal::TooLong);
        }
        Ok(PackedSource { bytes })
    }
}

impl<'a> TagSource for PackedSource<'a> {
    ghost holds = { packed_holds };

    fn next(&mut self) -> Result<Option<Tag>, Fault> {
        let Some((b, rest)) = self.bytes.split_first() else {
            return Ok(None);
        };
        self.bytes = rest;
        Ok(Some(unpacked(*b)))
    }
}
