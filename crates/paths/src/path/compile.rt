//! From a path to its table.
ghost use Rattle.std.specs.Prelude.{◌≡◌, ◌<◌, ◌∷◌, [], length, MatchOption, MatchResult};
ghost use Rattle.text.specs.Labelled.{names_of};
ghost use Rattle.paths.specs.Positions.{start_set, MoreThan};
ghost use Rattle.paths.specs.Tables.{TableOf, Overfull};
ghost use Rattle.paths.specs.Texts.{steps_of};

use crate::path::Path;
use crate::sets::Sets;
use base::table::{Row, Table};
use text::labels::Labels;
use text::refusal::Refusal;

impl Path {
    /// The table of the path over these labels: its states are the position sets that the path reaches, numbered as they are
    /// first met. Refuses a path that reaches more than 32 sets (10).
    pub fn table(&self, labels: &Labels) -> Result<Table, Refusal>
        ensures { MatchResult result (TableOf (steps_of self.now) (length (names_of labels.now))) (Overfull (steps_of self.now) (length (names_of labels.now))) }
    {
        let mut scan = Scan {
            path: self,
            labels,
            sets: Sets::new(),
        };
        let rows = scan.rows().ok_or(Refusal::TooManySets)?;
        Table::new(labels.count(), scan.sets.count(), 0, rows)
    }
}

// The position sets of a path, met row by row: where the labels lead from each set, and so to further sets.
#[derive(Drop)]
struct Scan<'a> {
    path: &'a Path,
    labels: &'a Labels,
    sets: Sets,
}

impl<'a> Scan<'a> {
    ghost use Rattle.paths.specs.Scans.{steps_in, labels_in, sets_in, Kept, RowFrom, StuckFrom, AllScanned};

    // The rows of all states that are met; nothing where the sets run out of numbers.
    fn rows(&mut self) -> Option<[Row; 32]>
        requires { sets_in self.old ≡ start_set ∷ [] }
        ensures rows { MatchOption result (MoreThan 32 (steps_in self.old) (labels_in self.old)) (AllScanned self.old self.new) }
        ensures kept { Kept self.old self.new }
    {
        let mut rows = [Row {
            targets: [0; 16],
            accepts: false,
        }; 32];
        let mut state = 0;
        // No `for`: a row may meet further sets, which are states too.
        while state < self.sets.count() {
            rows[state as usize] = self.row(state)?;
            state += 1;
        }
        Some(rows)
    }

    // The row of one state; nothing where the sets run out of numbers.
    fn row(&mut self, state: u8) -> Option<Row>
        requires { state < length (sets_in self.old) }
        ensures row { MatchOption result (StuckFrom self.old state self.new) (RowFrom self.old state self.new) }
        ensures kept { Kept self.old self.new }
    {
        let set = self.sets.set(state);
        let mut targets = [0; 16];
        let n = self.labels.count() as usize;
        for (label, target) in targets[..n].iter_mut().enumerate() {
            *target = self.sets.number(set.moved(self.path, label as u8))?;
        }
        let accepts = set.holds(self.path.steps().len());
        Some(Row { targets, accepts })
    }
}
