//! Refusals by their numbers, which tests state since users read them.
use text::refusal::Refusal;

/// The number that something is refused with.
pub fn refused<T: Drop>(made: Result<T, Refusal>) -> Option<u8> {
    made.err().map(u8::from)
}
