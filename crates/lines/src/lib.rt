// The lines of a sheet read one by one into its record, each judged by the rules.
// For the crates above: the lines are well-shaped, and no section has too many.
#![tactic(auto)]

mod lines;
mod result;

pub use lines::read_lines;
pub use result::{Reading, refused, refused_at};
