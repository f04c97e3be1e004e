// A half-decided sheet in sets, settled: all that follows is decided, towards a value that is wanted.
// For the crates above: the sets handed in must be apart. That is said of sets and chart together, so neither's type can hold it.
#![tactic(auto)]

mod settling;

pub use settling::{Settled, settle};
