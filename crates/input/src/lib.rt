// An input's bytes in a lent buffer.
#![tactic(auto)]

mod filling;

pub use filling::fill;
