// The record of a sheet as 1,894 bytes, and taken from them.
#![tactic(auto)]

mod record_bytes;

pub use record_bytes::record_in;
