//! A selector that serves a query, and its whole run.
ghost use Rattle.base.specs.Tables.{automaton};
ghost use Rattle.choosing.specs.Choices.{Begins};

use crate::kind::SelectorKind;
use crate::reading::Reading;
use base::selector::MAX_LEVELS;
use base::source::TagSource;
use base::stack_selector::StackSelector;
use base::table::Table;
use grading::registerless::RegisterlessSelector;
use grading::stackless::StacklessSelector;
use text::refusal::Refusal;

/// A selector as far as it is made without lent memory.
#[derive(Drop)]
pub enum Made {
    Registerless(RegisterlessSelector),
    Stackless(StacklessSelector),
    Stack,
}

// A ghost field must be a proposition, so the fact is truncated.
/// A table, and a selector that serves its query.
#[derive(Drop)]
pub struct Chosen<'a> {
    table: &'a Table,
    made: Made,
    ghost begins: { ∥ Begins (automaton table.now) made ∥₁ },
}

impl<'a> Chosen<'a> {
    ghost use Rattle.std.specs.Prelude.{◌≡◌};
    ghost use Rattle.choosing.specs.Choices.{kind_of, carry_of};
    ghost use Rattle.choosing.specs.Chosens.{Chooses};
    ghost use Rattle.choosing.specs.Readings.{StackRuns, Reads};

    /// The selector that is wanted, or else the least that serves the table's query; refuses one that does not serve it (13, 14).
    pub fn choose(table: &'a Table, wanted: Option<SelectorKind>) -> Result<Chosen<'a>, Refusal>
        ensures { Chooses table.now wanted result }
    {
        let made = Made::wanted(table, wanted)?;
        Ok(Chosen { table, made })
    }

    /// Which selector it is.
    pub fn kind(&self) -> SelectorKind
        ensures { result ≡ kind_of self.now.made }
    {
        match self.made {
            Made::Registerless(_) => SelectorKind::Registerless,
            Made::Stackless(_) => SelectorKind::Stackless,
            Made::Stack => SelectorKind::Stack,
        }
    }

    /// How many levels it can follow with this stack.
    pub fn carry(&self, stack: &[u8]) -> u32
        ensures { result ≡ carry_of self.now.made stack.now }
    {
        match self.made {
            Made::Registerless(_) | Made::Stackless(_) => u32::from(MAX_LEVELS),
            Made::Stack => stack.len().min(usize::from(MAX_LEVELS)) as u32,
        }
    }

    /// A whole run: begun, drained of the source once, and ended. Only the stack selector writes to the stack.
    pub fn read<T: TagSource + Drop>(
        self,
        limit: u32,
        stack: &mut [u8],
        source: T,
        picks: &mut [u32],
    ) -> Reading
        ensures { Reads (automaton self.entry.table.now) self.entry.made limit (T.holds source) stack.old stack.new picks.old picks.new result }
    {
        let Chosen { table, made } = self;
        match made {
            Made::Registerless(selector) => Reading::of(table, selector, limit, source, picks),
            Made::Stackless(selector) => Reading::of(table, selector, limit, source, picks),
            Made::Stack => {
                let selector = StackSelector::new(table, stack);
                Reading::of(table, selector, limit, source, picks)
            }
        }
    }
}

impl Made {
    ghost use Rattle.choosing.specs.Choices.{NoLesser, Makes};

    // The selector that is wanted, or else the least that serves.
    fn wanted(table: &Table, wanted: Option<SelectorKind>) -> Result<Made, Refusal>
        ensures { Makes (automaton table.now) wanted result }
    {
        match wanted {
            None => Ok(Made::least(table)),
            Some(SelectorKind::Registerless) => {
                Ok(Made::Registerless(RegisterlessSelector::new(table)?))
            }
            Some(SelectorKind::Stackless) => Ok(Made::Stackless(StacklessSelector::new(table)?)),
            Some(SelectorKind::Stack) => Ok(Made::Stack),
        }
    }

    // The least selector that serves.
    fn least(table: &Table) -> Made
        ensures begins { Begins (automaton table.now) result }
        ensures least { NoLesser (automaton table.now) result }
    {
        if let Ok(selector) = RegisterlessSelector::new(table) {
            return Made::Registerless(selector);
        }
        if let Ok(selector) = StacklessSelector::new(table) {
            return Made::Stackless(selector);
        }
        Made::Stack
    }
}
