// A half-decided sheet after forcing: what is open, what is kept in weight and what can still be had.
// For the crates above: counts handed in must be those of a record.
#![tactic(auto)]

mod opened;
mod weights;

pub use opened::{Half, half_decided, open_items};
pub use weights::{weigh, weigh_both, weight_if};
