// The limits of one item of a half-decided sheet, kept and dropped.
// For the crates above: the half-decided sheet must be one that forcing left. That is said of it and the chart together, so neither's type
// can hold it.
#![tactic(auto)]

mod cells;

pub use cells::{Limit, no_limit, option_limit, ordering_limit};
