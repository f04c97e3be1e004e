// How much of the open weight every consistent relaxation must lose: chains of items that cannot all be kept are found and charged, one after another.
// For the crates above: what is enough must not be above the largest sum and one.
#![tactic(auto)]

mod charging;

pub use charging::{Charged, bound};
