//! Pairs of a table's states.
ghost use Rattle.std.specs.Prelude.{◌≡◌, ◌<◌};
ghost use Rattle.base.specs.Tables.{automaton};

use crate::reading::step;
use base::table::Table;

/// Two states of a table.
#[derive(Clone, Copy)]
pub struct StatePair<'a> {
    pub table: &'a Table,
    pub first: u8,
    pub second: u8,
    ghost inside: { (first < (automaton table.now).states) × (second < (automaton table.now).states) },
}

impl<'a> StatePair<'a> {
    /// Where the label leads both states.
    pub fn step(self, label: u8) -> StatePair<'a>
        requires { label < (automaton self.table.now).labels }
        ensures table { result.table.now ≡ self.entry.table.now }
        ensures first { result.first ≡ (automaton self.entry.table.now).step self.entry.first label }
        ensures second { result.second ≡ (automaton self.entry.table.now).step self.entry.second label }
    {
        StatePair {
            table: self.table,
            first: step(self.table, self.first, label),
            second: step(self.table, self.second, label),
        }
    }
}
