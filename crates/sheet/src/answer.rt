// What a part of the library answers.
ghost use Rattle.std.specs.Prelude.{◌≡◌};
ghost use Rattle.sheet.specs.Answer.{number_of, refused};

use shape::Place;

// Why something is refused, with its number in the requirements' table.
#[derive(Clone, Copy, Debug, PartialEq, Eq)]
pub enum Refusal {
    SheetTooLong = 1,
    NoTrailer = 2,
    BadTrailer = 3,
    Misshapen = 4,
    OutsideRange = 5,
    TooManyLines = 6,
    SubscribedTwice = 7,
    OneOptionTwice = 8,
    NotSubscribed = 9,
    SamePairAgain = 10,
    ToleranceTooLarge = 11,
    NotRecorded = 12,
    OutputTooShort = 13,
    WrongDecisions = 14,
    NotConsistent = 15,
}

// The number of a refusal in that table.
pub fn number_of(why: Refusal) -> usize
    ensures { result ≡ number_of why }
{
    why as usize
}

// Outside callers match its two cases, so it is no Result.
#[derive(Clone, Copy)]
pub enum Answer {
    Accepted,
    Refused { place: Place, why: Refusal },
}

impl Answer {
    // A refusal of the call as a whole: line 0, column 0.
    pub fn refused(why: Refusal) -> Answer
        ensures { result ≡ refused why }
    {
        Answer::Refused {
            place: Place { line: 0, column: 0 },
            why,
        }
    }
}
