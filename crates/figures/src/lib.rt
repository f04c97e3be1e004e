// Answers that are numbers: the limits of a half-decided sheet as 386 of them, and a search's two totals.
#![tactic(auto)]

mod limits_out;
mod totals_out;

pub use limits_out::{contradictions, put_limits};
pub use totals_out::put_totals;
