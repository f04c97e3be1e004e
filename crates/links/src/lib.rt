// Whether numbers that were found name items that are linked, each to the next and the last to the first: a chain that cannot be kept whole.
// For the crates above: a chain may hold any numbers.
#![tactic(auto)]

mod chain;
mod links;

pub use chain::{all_named, closed};
pub use links::option_at;
