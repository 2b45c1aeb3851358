//! Pairs of states that deny a grade.
ghost use Rattle.std.specs.Prelude.{◌<◌, MatchOption};
ghost use Rattle.automata.specs.Grades.{Registerless, Clashing, LowestClash, Stackless, Knot};
ghost use Rattle.base.specs.Tables.{automaton};
ghost use Rattle.grading.specs.Knowing.{Plain};
ghost use Rattle.grading.specs.StateSets.{Gathers, Tells};

use crate::facts::Facts;
use crate::products::Pair;
use crate::states::StateSet;

impl Facts<'_> {
    // The states that the state clashes with.
    fn clashing(&self, state: u8) -> StateSet
        requires { state < (automaton self.now.table.now).states }
        ensures { let A = automaton self.now.table.now in Gathers (Clashing A state) A.states result }
    {
        let internal = self.internal();
        if !internal.has(state) {
            return StateSet::none();
        }
        let met = internal.intersection(self.meet.row(state));
        met.intersection(self.apart(state))
    }

    /// The lowest pair of states that clash.
    pub fn lowest_clash(&self) -> Option<Pair>
        ensures { let A = automaton self.now.table.now in MatchOption result (Registerless A) (λ pair. LowestClash A pair.first pair.second) }
    {
        for first in 0..self.table.states() {
            if let Some(second) = self.clashing(first).next() {
                return Some(Pair { first, second });
            }
        }
        None
    }

    // Whether the state makes a knot with another.
    fn knots(&self, state: u8) -> bool
        requires { state < (automaton self.now.table.now).states }
        ensures { let A = automaton self.now.table.now in Tells result (Knot A) (Plain A state) }
    {
        let component = self.component(state);
        let met = component.intersection(self.inside.row(state));
        !met.intersection(self.apart(state)).is_empty()
    }

    /// Whether no component has a knot.
    pub fn stackless(&self) -> bool
        ensures { let A = automaton self.now.table.now in Tells result (Stackless A) (Knot A) }
    {
        !(0..self.table.states()).any(|state| self.knots(state))
    }
}
