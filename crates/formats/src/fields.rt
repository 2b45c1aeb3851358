//! Fields at the front of a text.
ghost use Rattle.std.specs.Prelude.{◌≡◌, ◌<◌, length, MatchOption};
ghost use Rattle.text.specs.Pieces.{last, next, split};
ghost use Rattle.formats.specs.Forms.{number_form};
ghost use Rattle.formats.specs.Reading.{Found, Missing};

use text::numbers::read_number;
use text::pieces::place_of;

/// The piece before the first separator, and what comes after it.
pub(crate) fn split_once(sep: u8, text: &[u8]) -> Option<(&[u8], &[u8])>
    ensures { MatchOption result (split sep text.now ≡ last text.now) (λ p. (split sep text.now ≡ next p.0.now (split sep p.1.now)) × (length p.1.now < length text.now)) }
{
    let n = place_of(sep, text)?;
    Some((&text[..n], &text[n + 1..]))
}

/// The number that the byte ends, and what comes after it.
pub(crate) fn take_number(end: u8, text: &[u8]) -> Option<(u8, &[u8])>
    requires { end < 48 }
    ensures { MatchOption result (Missing (number_form end) text.now) (λ p. Found (number_form end) text.now (λ n. n ≡ p.0) p.1.now) }
{
    let (field, rest) = split_once(end, text)?;
    let n = read_number(field)?;
    Some((n, rest))
}
