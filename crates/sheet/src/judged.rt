// What the rules say of a well-shaped line.
use crate::answer::Refusal;

// The first rule that a line breaks, with its column. Outside callers have it from `judge_..`, so it is no Option.
#[derive(Clone, Copy, Debug, PartialEq, Eq)]
pub enum Judged {
    Fine,
    Broken(Refusal, usize),
}
