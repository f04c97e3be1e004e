// Limits of a half-decided sheet.
#![tactic(auto)]

mod answer;
mod whole;

pub use answer::{LimitsAnswer, limits};
pub use whole::Limited;
