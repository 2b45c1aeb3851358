//! Labels: the names that tags and paths go by.
ghost use Rattle.std.specs.Prelude.{◌≡◌, ◌≤◌, false, length, position};
ghost use Rattle.std.specs.Str.{bytes_eq};
ghost use Rattle.text.specs.NameLists.{twice};
ghost use Rattle.text.specs.Stored.{name_bytes, stored};

use crate::labels::name::Name;
use crate::list::ArrayList;
use crate::refusal::Refusal;

mod name;

/// The most labels that there can be.
pub const MAX_LABELS: usize = 16;

/// 1 to 16 names by the rule, none of them twice. A name's number is its place.
#[derive(Clone, Copy)]
pub struct Labels {
    names: ArrayList<Name, MAX_LABELS>,
    ghost some: { 1 ≤ length (stored names) },
    ghost apart: { twice (stored names) ≡ false },
}

impl Labels {
    ghost use Rattle.std.specs.Prelude.{[], ◌∷◌, ◌++◌, is_ok, if◌then◌else◌};
    ghost use Rattle.text.specs.NameLists.{place, Lowest};
    ghost use Rattle.text.specs.Labelled.{names_of, read_names, single, admitted, Named};

    /// A single label, number 0.
    pub fn new(name: &[u8]) -> Result<Labels, Refusal>
        ensures { read_names result ≡ single name.now }
    {
        let name = Name::new(name)?;
        let mut names = ArrayList::empty(name);
        let _ = names.push(name);
        Ok(Labels { names })
    }

    /// One more label, after the others. A refusal leaves the labels as they are.
    pub fn push(&mut self, name: &[u8]) -> Result<(), Refusal>
        ensures result { result ≡ admitted (names_of self.old) name.now }
        ensures names { names_of self.new ≡ (if is_ok result then names_of self.old ++ name.now ∷ [] else names_of self.old) }
    {
        let added = Name::new(name)?;
        if self.names.len() == MAX_LABELS {
            return Err(Refusal::NameCount);
        }
        if self.find(name).is_some() {
            return Err(Refusal::NameTwice);
        }
        let _ = self.names.push(added);
        Ok(())
    }

    /// How many labels there are.
    pub fn count(&self) -> u8
        ensures { result ≡ length (names_of self.now) }
    {
        self.names.len() as u8
    }

    /// The number of the name, its place.
    pub fn find(&self, name: &[u8]) -> Option<u8>
        ensures place { result ≡ place (names_of self.now) name.now }
        ensures lowest { Lowest (names_of self.now) name.now result }
    {
        let place = first(self.names.as_slice(), name)?;
        Some(place as u8)
    }

    /// The name with this number.
    pub fn name(&self, label: u8) -> Option<&[u8]>
        ensures { Named (names_of self.now) label result }
    {
        let name = self.names.as_slice().get(label as usize)?;
        Some(name.as_bytes())
    }
}

// The first of the names that is this one.
fn first(names: &[Name], name: &[u8]) -> Option<usize>
    ensures { result ≡ position (λ n. bytes_eq (name_bytes n) name.now) names.now }
{
    names.iter().position(|n| n.is(name))
}
