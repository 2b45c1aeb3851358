//! A table: the automaton of a query, written out.
ghost use Rattle.std.specs.Prelude.{◌≡◌, ℕ, ◌<◌, ◌≤◌, length, take};
ghost use Rattle.base.specs.Rows.{target, each_below, rows_each_below};

use text::refusal::Refusal;

/// What a state has: a target for each label, and yes or no. Targets past the label count mean nothing.
#[derive(Clone, Copy)]
pub struct Row {
    pub targets: [u8; 16],
    pub accepts: bool,
}

/// At most 32 states and 16 labels: a row for each state. Rows past the state count mean nothing.
#[derive(Clone, Copy)]
pub struct Table {
    labels: u8,
    states: u8,
    start: u8,
    pub rows: [Row; 32],
    ghost sized: { (1 ≤ labels) × (labels ≤ 16) × (1 ≤ states) × (states ≤ 32) × (start < states) },
    ghost closed: { ((p a : ℕ) → p < states → a < labels → target rows p a < states) },
}

impl Table {
    ghost use Rattle.base.specs.Tables.{Made, automaton, target_of, answer_of};

    /// The table with these parts; refuses, in this order, a label count that is not 1 to 16 (5), a state count that is not
    /// 1 to 32 or a start that is not below it (11), and a target that is not below it (12).
    pub fn new(labels: u8, states: u8, start: u8, rows: [Row; 32]) -> Result<Table, Refusal>
        ensures { Made (record { labels = labels; states = states; start = start; rows = rows }) result }
    {
        if labels == 0 || labels > 16 {
            return Err(Refusal::NameCount);
        }
        if states == 0 || states > 32 || start >= states {
            return Err(Refusal::StatesLine);
        }
        if !rows_below(&rows[..states as usize], labels, states) {
            return Err(Refusal::Row);
        }
        Ok(Table {
            labels,
            states,
            start,
            rows,
        })
    }

    pub fn labels(&self) -> u8
        ensures { result ≡ (automaton self.now).labels }
    {
        self.labels
    }

    pub fn states(&self) -> u8
        ensures { result ≡ (automaton self.now).states }
    {
        self.states
    }

    pub fn start(&self) -> u8
        ensures { result ≡ (automaton self.now).start }
    {
        self.start
    }

    /// Where the label leads from the state; none where the table has no such state or label.
    pub fn target(&self, state: u8, label: u8) -> Option<u8>
        ensures { result ≡ target_of (automaton self.now) state label }
    {
        if state < self.states && label < self.labels {
            Some(self.step(state, label))
        } else {
            None
        }
    }

    /// Whether the state is a yes state; none where the table has no such state.
    pub fn accepts(&self, state: u8) -> Option<bool>
        ensures { result ≡ answer_of (automaton self.now) state }
    {
        if state < self.states {
            Some(self.says_yes(state))
        } else {
            None
        }
    }

    // Where the label leads from the state.
    pub(crate) fn step(&self, state: u8, label: u8) -> u8
        requires { (state < self.now.states) × (label < self.now.labels) }
        ensures { result ≡ (automaton self.now).step state label }
    {
        self.rows[state as usize].targets[label as usize]
    }

    // Whether the state is a yes state.
    pub(crate) fn says_yes(&self, state: u8) -> bool
        requires { state < self.now.states }
        ensures { result ≡ (automaton self.now).yes state }
    {
        self.rows[state as usize].accepts
    }
}

// Whether each target of these rows is below the bound.
fn rows_below(rows: &[Row], labels: u8, bound: u8) -> bool
    requires { labels ≤ 16 }
    ensures { result ≡ rows_each_below labels bound rows.now }
{
    rows.iter()
        .all(|row| all_below(&row.targets[..labels as usize], bound))
}

fn all_below(targets: &[u8], bound: u8) -> bool
    ensures { result ≡ each_below bound targets.now }
{
    targets.iter().all(|target| *target < bound)
}
