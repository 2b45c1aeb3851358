//! The stack selector: runs any table, with a byte of lent memory for each level.
ghost use Rattle.std.specs.Prelude.{◌≡◌, ℕ, ◌<◌, slice_index};
ghost use Rattle.base.specs.Tables.{automaton};

use crate::selector::{MAX_LEVELS, Selector};
use crate::stack::Stack;
use crate::table::Table;

/// The state that the open elements lead to, and in the store the states from before each of them.
#[derive(Drop)]
pub struct StackSelector<'a> {
    table: &'a Table,
    store: Stack<'a, u8>,
    state: u8,
    ghost inside: { (state < (automaton table.now).states) × ((i : ℕ) → i < store.len → slice_index store.places.now i < (automaton table.now).states) },
}

impl<'a> StackSelector<'a> {
    ghost use Rattle.automata.specs.Storing.{carry};
    ghost use Rattle.base.specs.Stacks.{used};
    ghost use Rattle.base.specs.Storing.{storing};

    /// Over lent bytes, of which at most the first 65,535 are used; their contents do not matter, and stay until an opening
    /// writes.
    pub fn new(table: &'a Table, bytes: &'a mut [u8]) -> StackSelector<'a>
        ensures table { result.table.now ≡ table.now }
        ensures state { result.state ≡ table.now.start }
        ensures used { used result.store ≡ 0 }
        ensures bytes { result.store.places.now ≡ bytes.old }
        ensures lent { result.store.places.ghost_name ≡ bytes.entry.ghost_name }
    {
        StackSelector {
            table,
            store: Stack::new(bytes),
            state: table.start(),
        }
    }

    /// The lent bytes back.
    pub fn into_bytes(self) -> &'a mut [u8]
        ensures bytes { result.now ≡ self.entry.store.places.now }
        ensures lent { result.ghost_name ≡ self.entry.store.places.ghost_name }
    {
        let StackSelector {
            table: _,
            store,
            state: _,
        } = self;
        store.into_places()
    }

    // The carry: a level for each byte, and 65,535 at most.
    fn levels(&self) -> usize
        ensures { result ≡ carry storing self.now }
    {
        self.store.capacity().min(usize::from(MAX_LEVELS))
    }
}

impl<'a> Selector for StackSelector<'a> {
    ghost use Rattle.automata.specs.Storing.{meaning as meaning_by, moves as moves_by};
    ghost use Rattle.automata.proofs.Storing.{storing_rules};
    ghost use Rattle.base.specs.Storing.{storing};

    ghost meaning = { meaning_by storing };

    ghost moves = { moves_by storing };

    ghost rules = { storing_rules storing };

    fn label_count(&self) -> u8 {
        self.table.labels()
    }

    fn carry(&self) -> u32 {
        self.levels() as u32
    }

    fn renew(&mut self) {
        self.store.clear();
        self.state = self.table.start();
    }

    fn open(&mut self, label: u8) -> bool {
        if label >= self.table.labels() || self.store.len() >= self.levels() {
            return false;
        }
        let _ = self.store.push(self.state);
        self.state = self.table.step(self.state, label);
        self.table.says_yes(self.state)
    }

    fn close(&mut self, label: u8) {
        if label >= self.table.labels() {
            return;
        }
        if let Some(state) = self.store.pop() {
            self.state = state;
        }
    }
}
