// The chart of a record. For the crates above: the record must have passed `is_recorded`.
#![tactic(auto)]

mod charting;

pub use charting::chart_of;
