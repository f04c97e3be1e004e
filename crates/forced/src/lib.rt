// Forced decisions of a half-decided sheet.
#![tactic(auto)]

mod forcing;
mod parts;

pub use forcing::{Forced, force};
