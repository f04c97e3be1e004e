// Refusals of this boundary: a list that is none, a lent output that is too short.
ghost use Rattle.std.specs.Prelude.{true, ◌&&◌, ◌≡◌, ◌≤◌, leb};
ghost use Rattle.wire.specs.Lent.{is_accepted, with_list, lent};

use sheet::{Answer, Refusal};

pub fn is_accepted(answer: Answer) -> bool
    ensures { result ≡ is_accepted answer }
{
    matches!(answer, Answer::Accepted)
}

// 14, after 12.
#[tactic(auto, unfolding(crate::specs::Lent::with_list))]
pub fn with_list(answer: Answer, recorded: bool, spelled: bool) -> Answer
    ensures { result ≡ with_list answer recorded spelled }
{
    if recorded && !spelled {
        return Answer::refused(Refusal::WrongDecisions);
    }
    answer
}

// 13, after everything else.
#[tactic(auto, unfolding(crate::specs::Lent::lent))]
fn if_it_fits(answer: Answer, fits: bool) -> Answer
    ensures { result ≡ lent answer fits }
{
    if is_accepted(answer) && !fits {
        return Answer::refused(Refusal::OutputTooShort);
    }
    answer
}

// The answer where so many entries go to a lent output of this length.
pub fn lent(answer: Answer, length: usize, entries: usize) -> Answer
    ensures { (result ≡ lent answer (leb entries length)) × (is_accepted result ≡ true → entries ≤ length) }
{
    if_it_fits(answer, entries <= length)
}

// And where more go to another.
pub fn lent_both(
    answer: Answer,
    length: usize,
    entries: usize,
    other_length: usize,
    others: usize,
) -> Answer
    ensures { (result ≡ lent answer (leb entries length && leb others other_length)) × (is_accepted result ≡ true → (entries ≤ length) × (others ≤ other_length)) }
{
    if_it_fits(answer, entries <= length && others <= other_length)
}
