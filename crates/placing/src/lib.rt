// At each place the smallest catalogue number whose predecessors are all placed.
// For the crates above: slots are below 32, and every slot has a number.
#![tactic(auto)]

mod place;

pub use place::place_all;
