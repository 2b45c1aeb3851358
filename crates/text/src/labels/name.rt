//! Names as they are stored.
ghost use Rattle.std.specs.Prelude.{◌≡◌, true};
ghost use Rattle.text.specs.Lists.{items};
ghost use Rattle.text.specs.Names.{is_name};

use crate::list::ArrayList;
use crate::names::{MAX_NAME, is_name};
use crate::refusal::Refusal;

/// A name by the rule.
#[derive(Clone, Copy)]
pub(super) struct Name {
    bytes: ArrayList<u8, MAX_NAME>,
    ghost rule: { is_name (items bytes) ≡ true },
}

impl Name {
    ghost use Rattle.std.specs.Prelude.{Ok, Err, MatchResult, false};
    ghost use Rattle.std.specs.Str.{bytes_eq};
    ghost use Rattle.text.specs.declared.refusal.Refusal.TheVariants.{BadName};
    ghost use Rattle.text.specs.Stored.{name_bytes};

    /// The name with these bytes; refuses bytes that are none.
    pub(super) fn new(name: &[u8]) -> Result<Name, Refusal>
        ensures { MatchResult result (λ n. (name_bytes n ≡ name.now) × (is_name name.now ≡ true)) (λ why. (why ≡ BadName) × (is_name name.now ≡ false)) }
    {
        if !is_name(name) {
            return Err(Refusal::BadName);
        }
        match ArrayList::from_slice(0, name) {
            Some(bytes) => Ok(Name { bytes }),
            None => unreachable!(),
        }
    }

    /// The bytes of the name.
    pub(super) fn as_bytes(&self) -> &[u8]
        ensures { result.now ≡ name_bytes self.now }
    {
        self.bytes.as_slice()
    }

    // Whether the name has these bytes.
    pub(super) fn is(&self, name: &[u8]) -> bool
        ensures { result ≡ bytes_eq (name_bytes self.now) name.now }
    {
        self.as_bytes() == name
    }
}
