// The search of a sheet.
ghost use Rattle.std.specs.Prelude.{◌≡◌, ◌≤◌, true};
ghost use Rattle.sheet.specs.IsRecorded.{is_recorded};
ghost use Rattle.sheet.specs.Limits.{largest_value};
ghost use Rattle.search.specs.Search.{refused, accepted, Answers, SearchedAs};

use crate::found::{Found, found_in};
use sheet::{Answer, Decisions, Refusal, Sheet};

// The answer: kept or dropped for every item within the counts, open past them; the relaxation's value and a ceiling.
#[derive(Clone, Copy)]
pub struct Searched {
    pub answer: Answer,
    pub decisions: Decisions,
    pub value: u32,
    pub ceiling: u32,
}

impl Searched {
    // A refusal: its number, no place, and an all-zero result.
    fn refused(why: Refusal) -> Searched
        ensures { result ≡ refused why }
    {
        Searched {
            answer: Answer::refused(why),
            decisions: Decisions::open(),
            value: 0,
            ceiling: 0,
        }
    }
}

// What is not kept is dropped.
pub fn accepted(f: Found, n: usize, m: usize) -> Searched
    requires { (n ≤ 32) × (m ≤ 64) }
    ensures { result ≡ accepted f n m }
{
    let kept = f.kept;
    let rest = half::open_items(kept.options, 0, n);
    let rest_orderings = half::open_items(kept.orderings, 0, m);
    let options = given::all_decided(kept.options, rest, n);
    let orderings = given::all_decided(kept.orderings, rest_orderings, m);
    Searched {
        answer: Answer::Accepted,
        decisions: Decisions { options, orderings },
        value: f.value,
        ceiling: f.ceiling,
    }
}

// The search of a record that an accepted sheet gives.
pub fn answer_of(s: Sheet, tolerance: u32) -> Searched
    requires { (is_recorded s ≡ true) × (tolerance ≤ largest_value) }
    ensures { Answers s tolerance result }
{
    let chart = subscription::chart_of(&s);
    let f = found_in(&chart, tolerance);
    accepted(f, s.option_count, s.ordering_count)
}

// A consistent relaxation of the sheet within the tolerance of the best, its value and a ceiling; at tolerance 0 the best by the tie rule.
// Refused: 12, then 11.
pub fn search(s: Sheet, tolerance: u32) -> Searched
    ensures { SearchedAs s tolerance result }
{
    if !record::is_recorded(s) {
        return Searched::refused(Refusal::NotRecorded);
    }
    if Sheet::LARGEST_VALUE < tolerance {
        return Searched::refused(Refusal::ToleranceTooLarge);
    }
    answer_of(s, tolerance)
}
