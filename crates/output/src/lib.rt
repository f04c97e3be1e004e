// A whole text to an output.
#![tactic(auto)]

mod putting;

pub use putting::put_all;
