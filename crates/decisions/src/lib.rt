// A decision list as bytes, read and written.
#![tactic(auto)]

mod decision_bytes;
mod decisions_out;

pub use decision_bytes::{are_decisions, decisions_of};
pub use decisions_out::put_decisions;
