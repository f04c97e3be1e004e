// The record of a sheet, written as its 1,894 bytes.
// For the crates above: the output must have room for them, and each count must have two bytes.
#![tactic(auto)]

mod record_out;

pub use record_out::put_record;
