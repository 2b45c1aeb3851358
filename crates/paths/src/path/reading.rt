//! The text of a path, as `/a//b/*`.
ghost use Rattle.std.specs.Prelude.{◌≡◌, ◌<◌, length, MatchOption, MatchResult};
ghost use Rattle.text.specs.Labelled.{names_of};
ghost use Rattle.paths.specs.Texts.{steps_of, test_of, ReadAs, Unread, Refused};
ghost use Rattle.paths.specs.FirstSteps.{Unopened, Opens, Front, First};

use crate::path::{MAX_TEXT, Path, Step, Test};
use text::labels::Labels;
use text::list::ArrayList;
use text::refusal::Refusal;

impl Path {
    /// The path that the text writes with the labels' names; refuses, in this order, a text that is empty or longer than 200
    /// bytes (7), one that is not a list of steps (8), and more than 15 steps (9).
    pub fn read(labels: &Labels, text: &[u8]) -> Result<Path, Refusal>
        ensures { MatchResult result (λ p. ReadAs (names_of labels.now) text.now (steps_of p)) (Refused (names_of labels.now) text.now) }
    {
        if text.is_empty() || text.len() > MAX_TEXT {
            return Err(Refusal::PathLength);
        }
        let mut steps = ArrayList::empty(Step {
            descend: false,
            test: Test::Any,
        });
        let mut stored = Ok(());
        let mut rest = text;
        while !rest.is_empty() {
            let (step, after) = first_step(labels, rest).ok_or(Refusal::NotSteps)?;
            // A full list stays full: only the last push tells whether there was room for all.
            stored = steps.push(step);
            rest = after;
        }
        stored.or(Err(Refusal::TooManySteps))?;
        Ok(Path { steps })
    }

    /// The steps in order.
    pub fn steps(&self) -> &[Step]
        ensures { result.now ≡ steps_of self.now }
    {
        self.steps.as_slice()
    }
}

// The first step of the text, and what comes after it.
fn first_step<'a>(labels: &Labels, text: &'a [u8]) -> Option<(Step, &'a [u8])>
    requires { 0 < length text.now }
    ensures { MatchOption result (Unread (names_of labels.now) text.now) (λ p. First (names_of labels.now) text.now p.0 p.1.now) }
{
    let (descend, tail) = opening(text)?;
    let (word, rest) = tail.split_at(word_len(tail));
    let test = test_of(labels, word)?;
    Some((Step { descend, test }, rest))
}

// Whether the text begins with `//`, and what comes after the slashes; nothing where it does not even begin with `/`.
fn opening(text: &[u8]) -> Option<(bool, &[u8])>
    ensures { MatchOption result (Unopened text.now) (λ p. Opens text.now p.0 p.1.now) }
{
    match text {
        [b'/', b'/', tail @ ..] => Some((true, tail)),
        [b'/', tail @ ..] => Some((false, tail)),
        _ => None,
    }
}

// How many bytes stand before the first `/`.
fn word_len(text: &[u8]) -> usize
    ensures { Front text.now result }
{
    text.iter()
        .position(|byte| *byte == b'/')
        .unwrap_or(text.len())
}

// What the word tests for; nothing where it is neither `*` nor a label's name.
fn test_of(labels: &Labels, word: &[u8]) -> Option<Test>
    ensures { result ≡ test_of (names_of labels.now) word.now }
{
    match word {
        b"*" => Some(Test::Any),
        name => labels.find(name).map(Test::Label),
    }
}
