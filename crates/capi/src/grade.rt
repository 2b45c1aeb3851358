//! Grades for C.
ghost use Rattle.std.specs.Prelude.{◌≡◌};
ghost use Rattle.capi.specs.Failures.{outcome_number};
ghost use Rattle.capi.specs.Grades.{Grades, places};
ghost use Rattle.capi.specs.Queries.{OfText, OfPath};

use crate::failure::{Failure, number_of};
use crate::laying::lay;
use crate::query::{of_path, of_text};
use base::table::Table;
use grading::grade::{Grade, Graded};
use text::refusal::Refusal;

// The places that an answer takes.
const PLACES: usize = 4;

// A number for C in place of an `Option`: no notes serve.
const NO_NOTES: u32 = 0xffff_ffff;

/// Grades the table of a table text.
#[unsafe(no_mangle)]
pub extern "C" fn pintleapple_grade_table(text: &[u8], answer: &mut [u32]) -> u32
    ensures { Grades (OfText text.now) answer.old answer.new result }
{
    number_of(answer_grade(of_text(text), answer))
}

/// Grades the table of a path over the names of a label line.
#[unsafe(no_mangle)]
pub extern "C" fn pintleapple_grade_path(labels: &[u8], path: &[u8], answer: &mut [u32]) -> u32
    ensures { Grades (OfPath labels.now path.now) answer.old answer.new result }
{
    number_of(answer_grade(of_path(labels, path), answer))
}

// A grade goes into the answer.
fn answer_grade(query: Result<Table, Refusal>, answer: &mut [u32]) -> Result<(), Failure>
    ensures { Grades (λ q. q ≡ query) answer.old answer.new (outcome_number result) }
{
    if answer.len() < PLACES {
        return Err(Failure::TooFew);
    }
    let graded = Graded::of(&query?);
    lay(&Places::from(graded).0, answer);
    Ok(())
}

// The places of an answer, as a caller reads them.
#[derive(Clone, Copy)]
struct Places([u32; PLACES]);

impl From<Graded> for Places {
    ghost from_gives = { λ graded all. all.0 ≡ places graded };

    // The stackless selector needs one note less than there are components.
    fn from(graded: Graded) -> Places {
        let components = u32::from(graded.components);
        let spared = components.saturating_sub(1);
        let (grade, notes) = match graded.grade {
            Grade::Registerless => (1, spared),
            Grade::Stackless => (2, spared),
            Grade::Neither => (3, NO_NOTES),
        };
        Places([grade, u32::from(graded.table.states()), components, notes])
    }
}
