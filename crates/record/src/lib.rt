// The record's rule, checked: whether some accepted sheet gives a record.
#![tactic(auto)]

mod record;

pub use record::is_recorded;
