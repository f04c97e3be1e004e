// Charged conflicts: one closed chain of items charged against what is left of their weights.
// For the crates above: a chain may hold any numbers.
#![tactic(auto)]

mod charging;

pub use charging::charge;
