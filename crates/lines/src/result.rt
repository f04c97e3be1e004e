// What the reader answers.
ghost use Rattle.std.specs.Prelude.{◌≡◌};
ghost use Rattle.lines.specs.Result.{refused, refused_at, answered};

use shape::Place;
use sheet::{Answer, Refusal, Sheet};

// The answer, and the record of an accepted sheet. No Result: a refusal has a record too, which is all zero.
#[derive(Clone, Copy)]
pub struct Reading {
    pub answer: Answer,
    pub sheet: Sheet,
}

// A refusal: with its place, and an all-zero record.
pub fn refused(place: Place, why: Refusal) -> Reading
    ensures { result ≡ refused place why }
{
    let sheet = Sheet::empty();
    Reading {
        answer: Answer::Refused { place, why },
        sheet,
    }
}

// A refusal at a line and a column.
pub fn refused_at(why: Refusal, line: usize, column: usize) -> Reading
    ensures { result ≡ refused_at why line column }
{
    refused(Place { line, column }, why)
}

// The record that was read, if the answer lets it pass.
pub fn answered(answer: Answer, sheet: Sheet) -> Reading
    ensures { result ≡ answered answer sheet }
{
    match answer {
        Answer::Accepted => Reading { answer, sheet },
        Answer::Refused { place, why } => refused(place, why),
    }
}
