//! Tables, read at the states and labels that they have.
ghost use Rattle.std.specs.Prelude.{◌≡◌, ◌<◌};
ghost use Rattle.base.specs.Tables.{automaton};

use base::table::Table;

// Base has the same two for its own crate alone, since a public call has no `requires`.
/// Where the label leads from the state.
pub fn step(table: &Table, state: u8, label: u8) -> u8
    requires { (state < (automaton table.now).states) × (label < (automaton table.now).labels) }
    ensures { result ≡ (automaton table.now).step state label }
{
    table.rows[state as usize].targets[label as usize]
}

/// Whether the state is a yes state.
pub fn says_yes(table: &Table, state: u8) -> bool
    requires { state < (automaton table.now).states }
    ensures { result ≡ (automaton table.now).yes state }
{
    table.rows[state as usize].accepts
}
