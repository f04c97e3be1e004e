// Writing a sheet back.
#![tactic(auto)]

mod writing;

pub use writing::{Written, write};
