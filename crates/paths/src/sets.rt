//! The position sets met so far, each under its number.
ghost use Rattle.std.specs.Prelude.{◌≡◌, ℕ, ◌<◌, ◌≤◌, ◌≢◌, [], ◌∷◌, length, MatchOption, slice_index};
ghost use Rattle.text.specs.Lists.{items};
ghost use Rattle.paths.specs.Positions.{start_set};

use crate::positions::PositionSet;
use text::list::ArrayList;

// No two sets are equal. A set's number is its place.
#[derive(Drop)]
pub(crate) struct Sets {
    sets: ArrayList<PositionSet, 32>,
    ghost some: { 1 ≤ length (items sets) },
    ghost distinct: { ((p q : ℕ) → p < q → q < length (items sets) → slice_index (items sets) p ≢ slice_index (items sets) q) },
}

impl Sets {
    ghost use Rattle.paths.specs.Sets.{sets_of, Numbered, Full};

    // The set of position 0 alone.
    pub(crate) fn new() -> Sets
        ensures { sets_of result ≡ start_set ∷ [] }
    {
        let mut sets = ArrayList::empty(PositionSet::start());
        let _ = sets.push(PositionSet::start());
        Sets { sets }
    }

    pub(crate) fn count(&self) -> u8
        ensures { result ≡ length (sets_of self.now) }
    {
        self.sets.len() as u8
    }

    pub(crate) fn set(&self, number: u8) -> PositionSet
        requires { number < length (sets_of self.now) }
        ensures { result ≡ slice_index (sets_of self.now) number }
    {
        self.sets.as_slice()[number as usize]
    }

    // The set's number, the next one where the set is new; nothing where no number is left.
    pub(crate) fn number(&mut self, set: PositionSet) -> Option<u8>
        ensures { MatchOption result (Full (sets_of self.old) set × (self.new ≡ self.old)) (Numbered (sets_of self.old) set (sets_of self.new)) }
    {
        if let Some(p) = self.find(set) {
            return Some(p);
        }
        let next = self.count();
        self.sets.push(set).ok()?;
        Some(next)
    }

    fn find(&self, set: PositionSet) -> Option<u8>
        ensures { MatchOption result ((p : ℕ) → p < length (sets_of self.now) → slice_index (sets_of self.now) p ≢ set) (λ q. (q < length (sets_of self.now)) × (slice_index (sets_of self.now) q ≡ set)) }
    {
        let place = self.sets.as_slice().iter().position(|met| *met == set)?;
        Some(place as u8)
    }
}
