//! Sets of states.
ghost use Rattle.std.specs.Prelude.{◌≡◌, ℕ, ◌<◌, ◌≤◌, ◌⊎◌, ◌↔◌, Decides};
ghost use Rattle.std.specs.Iterator.{at_most};
ghost use Rattle.grading.specs.StateSets.{In, empty, None, Any, Tells, Sifts, Takes};

// That a state is below 32 is asked of each call: one with its table or a proof would be made from a byte at each loop and look-up.
/// Some of the states below 32: a bit for each.
#[derive(Clone, Copy)]
pub struct StateSet {
    mask: u32,
}

impl StateSet {
    pub fn none() -> StateSet
        ensures { result ≡ empty }
    {
        StateSet { mask: 0 }
    }

    pub fn only(state: u8) -> StateSet
        requires { state < 32 }
        ensures { (i : ℕ) → In i result ↔ (i ≡ state) }
    {
        StateSet::none().with(state)
    }

    /// The states below the count that pass the test.
    pub fn gather<F: Fn(u8) -> bool>(count: u8, test: F) -> StateSet
        requires within { count ≤ 32 }
        requires callable { (state : ℕ) → state < count → F.pre test state }
        ensures { Sifts (F.post test) count result }
    {
        let mut set = StateSet::none();
        for state in 0..count {
            if test(state) {
                set = set.with(state);
            }
        }
        set
    }

    pub fn has(self, state: u8) -> bool
        requires { state < 32 }
        ensures { Decides result (In state self) }
    {
        (self.mask >> state) & 1 == 1
    }

    pub fn is_empty(self) -> bool
        ensures { Tells result (None self) (Any self) }
    {
        self.mask == 0
    }

    /// The set with one state more.
    pub fn with(self, state: u8) -> StateSet
        requires { state < 32 }
        ensures { (i : ℕ) → In i result ↔ (In i self ⊎ (i ≡ state)) }
    {
        StateSet {
            mask: self.mask | (1 << state),
        }
    }

    /// The states of either set.
    pub fn union(self, other: StateSet) -> StateSet
        ensures { (i : ℕ) → In i result ↔ (In i self ⊎ In i other) }
    {
        StateSet {
            mask: self.mask | other.mask,
        }
    }

    /// The states of both sets.
    pub fn intersection(self, other: StateSet) -> StateSet
        ensures { (i : ℕ) → In i result ↔ (In i self × In i other) }
    {
        StateSet {
            mask: self.mask & other.mask,
        }
    }
}

impl Iterator for StateSet {
    type Item = u8;

    ghost next_gives = { λ s r t. Takes s t r };

    ghost remaining = { λ s. at_most s.mask };

    /// Takes the lowest state out.
    fn next(&mut self) -> Option<u8> {
        if self.mask == 0 {
            return None;
        }
        let lowest = self.mask.trailing_zeros();
        self.mask -= 1 << lowest;
        Some(lowest as u8)
    }
}
