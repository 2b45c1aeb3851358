//! The states line of a table text.
ghost use Rattle.std.specs.Prelude.{◌≡◌, MatchOption};
ghost use Rattle.formats.specs.Forms.{states_form};
ghost use Rattle.formats.specs.Reading.{Found, Missing};
ghost use Rattle.formats.specs.TableText.{Bounded};

use crate::fields::take_number;

/// 1 to 32 states, and which of them is the start.
#[derive(Clone, Copy)]
pub(crate) struct States {
    pub(crate) count: u8,
    pub(crate) start: u8,
    ghost bounded: { Bounded count start },
}

/// The states line, and what comes after it.
pub(crate) fn take_states(text: &[u8]) -> Option<(States, &[u8])>
    ensures { MatchOption result (Missing states_form text.now) (λ p. Found states_form text.now (λ v. (v.0 ≡ p.0.count) × (v.1 ≡ p.0.start)) p.1.now) }
{
    let fields = text.strip_prefix(b"states\t")?;
    let (count, field) = take_number(b'\t', fields)?;
    let (start, rest) = take_number(b'\n', field)?;
    if count == 0 || count > 32 || start >= count {
        return None;
    }
    Some((States { count, start }, rest))
}
