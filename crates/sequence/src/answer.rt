// The public function: refusals first, then the sequence.
ghost use Rattle.std.specs.Prelude.{◌≡◌};
ghost use Rattle.sequence.specs.Answer.{sequence_refused, sequence_answer};

use crate::whole::sequence_of;
use sheet::{Answer, Decisions, Number, Refusal, Sheet};

#[derive(Clone, Copy)]
pub struct Sequenced {
    pub answer: Answer,
    pub places: [Number; 32],
}

fn refused(why: Refusal) -> Sequenced
    ensures { result ≡ sequence_refused why }
{
    Sequenced {
        answer: Answer::refused(why),
        places: [Number(0); 32],
    }
}

// The catalogue numbers of the kept options, place by place; 0 past the last. A record that no sheet gives is refused as 12, a list
// that is not open past the record's counts or open at one of its items as 14, and a decision that is no consistent relaxation as 15.
pub fn sequence(sheet: Sheet, decisions: Decisions) -> Sequenced
    ensures { result ≡ sequence_answer sheet decisions }
{
    let n = sheet.option_count;
    let m = sheet.ordering_count;
    if !record::is_recorded(sheet) {
        return refused(Refusal::NotRecorded);
    }
    if given::has_decision_past(decisions, n, m) || given::has_open_item(decisions, n, m) {
        return refused(Refusal::WrongDecisions);
    }
    let chart = subscription::chart_of(&sheet);
    let sets = given::given_sets(decisions, n, m);
    let Some(places) = sequence_of(&chart, &sheet.numbers, sets) else {
        return refused(Refusal::NotConsistent);
    };
    Sequenced {
        answer: Answer::Accepted,
        places,
    }
}
