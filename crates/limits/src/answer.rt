// The public function: refusals first, then the whole answer.
ghost use Rattle.std.specs.Prelude.{◌≡◌};
ghost use Rattle.limits.specs.Answer.{limits_refused, limits_answer};

use crate::whole::{Limited, limits_of};
use sheet::{Answer, Decisions, Refusal, Sheet};

#[derive(Clone, Copy)]
pub struct LimitsAnswer {
    pub answer: Answer,
    pub limits: Limited,
}

fn refused(why: Refusal) -> LimitsAnswer
    ensures { result ≡ limits_refused why }
{
    LimitsAnswer {
        answer: Answer::refused(why),
        limits: Limited::nothing_but(false),
    }
}

// Forced decisions and limits of a half-decided sheet. A record that no sheet gives is refused as 12, and a list that is not open
// past the record's counts as 14.
pub fn limits(sheet: Sheet, decisions: Decisions) -> LimitsAnswer
    ensures { result ≡ limits_answer sheet decisions }
{
    let n = sheet.option_count;
    let m = sheet.ordering_count;
    if !record::is_recorded(sheet) {
        return refused(Refusal::NotRecorded);
    }
    if given::has_decision_past(decisions, n, m) {
        return refused(Refusal::WrongDecisions);
    }
    let chart = subscription::chart_of(&sheet);
    LimitsAnswer {
        answer: Answer::Accepted,
        limits: limits_of(&chart, given::given_sets(decisions, n, m)),
    }
}
