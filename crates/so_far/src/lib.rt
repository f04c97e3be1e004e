// What is found so far, what another must be worth to be wanted still, and what a leaf does to it.
// For the crates above: goal, tolerance and value must be those of a record.
#![tactic(auto)]

mod so_far;

pub use so_far::{Kept, SoFar};
