// Chains of open items that cannot all be kept: hints for the search, on which no answer rests.
// Whoever charges a chain checks its links again, so the finder is safe and ends, and promises no more.
// For the crates above: a chain is of at most 60 items.
#![tactic(auto)]

mod chain;
mod held;
mod level;
mod member;
mod walk;

pub use chain::{Chain, Hints, find};
pub use held::{holding, soft_of};
pub use member::end_at;
