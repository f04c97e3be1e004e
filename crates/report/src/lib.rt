// The report of a sheet, in a lent buffer.
#![tactic(auto)]

mod page;
mod reporting;

pub use reporting::{Reported, report};
