// Pieces of a text: its first line, its last line, the numbers of a line.
#![tactic(auto)]

mod line;
mod number;
mod trailer;

pub use line::{byte_at, line_length};
pub use number::numbers_of;
pub use trailer::{is_trailer, last_line};
