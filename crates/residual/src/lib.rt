// Residuals: what is left to charge of each item's weight, what an item's consequences hold of it, and taking from it, for one item or a chain.
// For the crates above: arrays handed to take_all must be those of a record, and the numbers of a chain those of its items.
#![tactic(auto)]

mod starting;
mod taking;
mod taking_all;

pub use starting::{Left, start, weights_of};
pub use taking::held_by;
pub use taking_all::take_all;
