//! The command `pick`.
use crate::options::PickOptions;
use crate::outcome::Outcome;
use crate::query::{load, read_file};
use crate::report;
use crate::stop::Stop;
use base::lines::LineSource;
use base::packed::PackedSource;
use base::selector::MAX_LEVELS;
use base::source::TagSource;
use choosing::chosen::Chosen;
use choosing::kind::SelectorKind;
use choosing::reading::Reading;
use formats::table_text::TableText;
use std::alloc::AllocError;
use text::refusal::Refusal;

/// Picks from a document, and prints what came of it.
pub fn pick<'a>(rt: &HostRuntime, options: PickOptions<'a>) -> Result<Outcome, Stop<'a>> {
    let query = load(rt, options.query)?;
    let document = read_file(rt, options.document)?;
    // A `match`, since a `map_err` to an error with a lifetime that nothing in it names is not covered by the check.
    let chosen = match Chosen::choose(&query.table, Some(options.selector)) {
        Ok(chosen) => chosen,
        Err(refusal) => return Err(Stop::Selector(refusal)),
    };
    let job = Job {
        rt,
        query: &query,
        document: document.as_slice(),
        options,
    };
    job.pick_by(chosen)
}

// A document, and what is to be picked from it.
#[derive(Clone, Copy)]
struct Job<'d, 'a> {
    rt: &'d HostRuntime,
    query: &'d TableText,
    document: &'d [u8],
    options: PickOptions<'a>,
}

impl<'d, 'a> Job<'d, 'a> {
    fn pick_by(self, chosen: Chosen<'d>) -> Result<Outcome, Stop<'a>> {
        let labels = &self.query.labels;
        let document = self.document;
        if self.options.packed {
            self.pick_from(chosen, || PackedSource::new(document))
        } else {
            self.pick_from(chosen, || LineSource::new(labels, document))
        }
    }

    // The bytes that a selector is lent: one for each level, and only for the stack selector.
    fn stack(self, kind: SelectorKind) -> Result<Vec<u8>, AllocError> {
        let levels = match kind {
            SelectorKind::Stack => MAX_LEVELS,
            _ => 0,
        };
        vec![in self.rt.alloc(); 0u8; levels as usize]
    }

    // Picks from the source that is made; it is made once more for the paths of the picked elements.
    fn pick_from<T: TagSource + Drop, F: Fn() -> Result<T, Refusal>>(
        self,
        chosen: Chosen<'d>,
        make: F,
    ) -> Result<Outcome, Stop<'a>>
        requires { F.IsAlwaysCallable make }
    {
        let path = self.options.document;
        let refused = |refusal| Stop::Text { path, refusal };
        let kind = chosen.kind();
        let mut stack = self.stack(kind)?;
        let mut picks = vec![in self.rt.alloc(); 0u32; self.document.len()]?;
        let limit = self.options.limit.unwrap_or(chosen.carry(stack.as_slice()));
        let source = make().map_err(refused)?;
        let Reading { drained, totals } = chosen.read(
            limit,
            stack.as_mut_slice(),
            source,
            picks.as_mut_slice(),
        );
        picks.truncate(drained.picks as usize);
        let mut again = make().map_err(refused)?;
        report::picks(
            self.rt,
            kind,
            &self.query.labels,
            &mut again,
            picks.as_slice(),
        )?;
        if let Err(cause) = drained.end {
            report::cause(self.rt, path, cause)?;
        }
        report::totals(self.rt, totals)?;
        if drained.end.is_ok() && totals.whole {
            Ok(Outcome::Sound)
        } else {
            Ok(Outcome::Flawed)
        }
    }
}
