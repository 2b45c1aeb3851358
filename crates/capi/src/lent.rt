//! What a picking call is lent, and what it does with it.
ghost use Rattle.std.specs.Prelude.{◌≡◌};
ghost use Rattle.choosing.specs.Kinds.{number_of_kind};
ghost use Rattle.capi.specs.Asking.{AsksFor};
ghost use Rattle.capi.specs.Failures.{outcome_number};
ghost use Rattle.capi.specs.Lending.{memory, Kept, Begun};
ghost use Rattle.capi.specs.Outcomes.{places, Picks};

use crate::failure::Failure;
use crate::laying::lay;
use base::packed::PackedSource;
use base::table::Table;
use choosing::chosen::Chosen;
use choosing::kind::SelectorKind;
use choosing::reading::Reading;
use text::refusal::Refusal;

// The places that the totals take.
const PLACES: usize = 6;

// What a caller asks for by a number: the least selector that serves, or one by its kind.
#[derive(Clone, Copy)]
pub(crate) struct Asked {
    pub(crate) wanted: Option<SelectorKind>,
}

impl TryFrom<u32> for Asked {
    type Error = Failure;

    ghost try_from_gives = { AsksFor };

    fn try_from(number: u32) -> Result<Asked, Failure> {
        let wanted = match number {
            0 => None,
            _ => Some(SelectorKind::try_from(number)?),
        };
        Ok(Asked { wanted })
    }
}

// The selector that ran, and what its run came to.
#[derive(Clone, Copy)]
pub(crate) struct Ran {
    pub(crate) selector: SelectorKind,
    pub(crate) reading: Reading,
}

impl Ran {
    // As a caller reads it.
    fn places(self) -> [u32; PLACES]
        ensures { result ≡ places (number_of_kind self.selector) self.reading }
    {
        let Reading { drained, totals } = self.reading;
        [
            u32::from(self.selector),
            drained.offered,
            drained.picks,
            totals.openings,
            totals.picks,
            u32::from(totals.whole),
        ]
    }
}

// The tags are not in it: a source that shares its lifetime would be moved while the stack is lent on, which no proof covers.
// The memory that a picking call writes to.
#[derive(Drop)]
pub(crate) struct Lent<'a> {
    pub(crate) stack: &'a mut [u8],
    pub(crate) picks: &'a mut [u32],
    pub(crate) totals: &'a mut [u32],
}

impl Lent<'_> {
    // Reads the tags, and picks with a selector for the table; what the run came to goes into the totals.
    pub(crate) fn pick(
        &mut self,
        query: Result<Table, Refusal>,
        selector: u32,
        limit: u32,
        tags: &[u8],
    ) -> Result<(), Failure>
        ensures picks { Picks (λ q. q ≡ query) selector limit tags.now (memory self.old) (memory self.new) (outcome_number result) }
        ensures kept { Kept self.old self.new }
    {
        if self.totals.len() < PLACES {
            return Err(Failure::TooFew);
        }
        let asked = Asked::try_from(selector)?;
        let run = self.read(query, asked.wanted, limit, tags)?;
        lay(&run.places(), self.totals);
        run.reading.drained.end?;
        Ok(())
    }

    // A run of the selector that is wanted over the tags; refuses the query, the selector or the tags.
    fn read(
        &mut self,
        query: Result<Table, Refusal>,
        wanted: Option<SelectorKind>,
        limit: u32,
        tags: &[u8],
    ) -> Result<Ran, Refusal>
        ensures reads { Begun (λ q. q ≡ query) wanted limit tags.now self.old self.new result }
        ensures kept { Kept self.old self.new }
        ensures totals { self.new.totals.now ≡ self.old.totals.now }
    {
        let table = query?;
        let chosen = Chosen::choose(&table, wanted)?;
        let source = PackedSource::new(tags)?;
        Ok(Ran {
            selector: chosen.kind(),
            reading: chosen.read(limit, self.stack, source, self.picks),
        })
    }
}
