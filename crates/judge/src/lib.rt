// The rules of a sheet's lines: the first one that a well-shaped line breaks.
#![tactic(auto)]

mod judge;

pub use judge::{judge_catalogue_line, judge_option, judge_ordering};
