//! Picks for C.
ghost use Rattle.capi.specs.Outcomes.{lent, Picks};
ghost use Rattle.capi.specs.Queries.{OfText, OfPath};

use crate::failure::number_of;
use crate::lent::Lent;
use crate::query::{of_path, of_text};

/// Reads packed bytes, and picks with a selector for the table of a table text.
#[unsafe(no_mangle)]
pub extern "C" fn pintleapple_pick_table(
    text: &[u8],
    selector: u32,
    limit: u32,
    stack: &mut [u8],
    tags: &[u8],
    picks: &mut [u32],
    totals: &mut [u32],
) -> u32
    ensures { Picks (OfText text.now) selector limit tags.now (lent stack.old picks.old totals.old) (lent stack.new picks.new totals.new) result }
{
    let mut lent = Lent {
        stack,
        picks,
        totals,
    };
    number_of(lent.pick(of_text(text), selector, limit, tags))
}

/// Reads packed bytes, and picks with a selector for the table of a path over the names of a label line.
#[unsafe(no_mangle)]
pub extern "C" fn pintleapple_pick_path(
    labels: &[u8],
    path: &[u8],
    selector: u32,
    limit: u32,
    stack: &mut [u8],
    tags: &[u8],
    picks: &mut [u32],
    totals: &mut [u32],
) -> u32
    ensures { Picks (OfPath labels.now path.now) selector limit tags.now (lent stack.old picks.old totals.old) (lent stack.new picks.new totals.new) result }
{
    let mut lent = Lent {
        stack,
        picks,
        totals,
    };
    number_of(lent.pick(of_path(labels, path), selector, limit, tags))
}
