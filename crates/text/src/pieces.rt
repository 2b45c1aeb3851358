//! Bytes in pieces.
ghost use Rattle.std.specs.Prelude.{◌≡◌, ◌+◌, ◌<◌, ◌==◌, length, take, drop, position, MatchOption};
ghost use Rattle.text.specs.Pieces.{last, next, split};

/// The place of the first separator: the piece before it comes first, and then those after it.
pub fn place_of(sep: u8, s: &[u8]) -> Option<usize>
    ensures { MatchOption result (split sep s.now ≡ last s.now) (λ n. (n < length s.now) × (split sep s.now ≡ next (take n s.now) (split sep (drop (n + 1) s.now)))) }
{
    first_at(sep, s)
}

fn first_at(byte: u8, s: &[u8]) -> Option<usize>
    ensures { result ≡ position (λ b. b == byte) s.now }
{
    s.iter().position(|b| *b == byte)
}
