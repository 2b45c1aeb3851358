//! What ends a call, and its number for C.
ghost use Rattle.std.specs.Prelude.{◌≡◌};
ghost use Rattle.capi.specs.Failures.{number_of_failure, outcome_number, refusal_of, IsRefused, IsUnknown};

use base::run::Cause;
use base::source::Fault;
use choosing::kind::UnknownSelector;
use text::refusal::Refusal;

// Too few places are lent, no selector has the number that is asked for, or something is refused.
#[derive(Clone, Copy)]
pub(crate) enum Failure {
    TooFew,
    NoSelector,
    Refused(Refusal),
}

impl From<Refusal> for Failure {
    ghost from_gives = { IsRefused };

    fn from(refusal: Refusal) -> Failure {
        Failure::Refused(refusal)
    }
}

impl From<Cause> for Failure {
    ghost from_gives = { λ cause failure. IsRefused (refusal_of cause) failure };

    fn from(cause: Cause) -> Failure {
        match cause {
            Cause::Fault(Fault { refusal, line: _ }) | Cause::Refused { refusal, tag: _ } => {
                Failure::Refused(refusal)
            }
        }
    }
}

impl From<UnknownSelector> for Failure {
    ghost from_gives = { IsUnknown };

    fn from(_unknown: UnknownSelector) -> Failure {
        Failure::NoSelector
    }
}

impl From<Failure> for u32 {
    ghost from_gives = { λ failure number. number ≡ number_of_failure failure };

    fn from(failure: Failure) -> u32 {
        match failure {
            Failure::TooFew => 255,
            Failure::NoSelector => 254,
            Failure::Refused(refusal) => u32::from(u8::from(refusal)),
        }
    }
}

// 0 where all went well, else the number of what did not.
pub(crate) fn number_of(outcome: Result<(), Failure>) -> u32
    ensures { result ≡ outcome_number outcome }
{
    match outcome {
        Ok(()) => 0,
        Err(failure) => u32::from(failure),
    }
}
