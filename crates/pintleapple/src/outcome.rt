//! How a command ends that does not stop early.
use std::process::ExitCode;

/// Sound where nothing was refused and a document that was read was whole.
#[derive(Clone, Copy)]
pub enum Outcome {
    Sound,
    Flawed,
}

impl From<Outcome> for ExitCode {
    fn from(outcome: Outcome) -> ExitCode {
        match outcome {
            Outcome::Sound => ExitCode::SUCCESS,
            Outcome::Flawed => ExitCode::FAILURE,
        }
    }
}
