// Loose items: an open item with no open item after it, or none before it, may be kept at once.
// For the crates above: rows and sets handed in must be those of a half-decided sheet.
#![tactic(auto)]

mod masks;
mod sides;

pub use masks::ends_of;
pub use sides::is_loose;
