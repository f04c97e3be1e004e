// The text of a record: how many bytes it has, and its bytes printed into a lent buffer.
// For the crates above: the record's counts must be at most 512, 32 and 64, and the buffer must have room for the text.
#![tactic(auto)]

mod put;
mod size;

pub use put::put_text;
pub use size::text_size;
