// Items kept or dropped in a half-decided sheet held as sets: one item more decided, and the open items that are kept beside the forced ones.
// For the crates above: an item's number is below 96.
#![tactic(auto)]

mod items;
mod keeping;

pub use items::{drop_item, keep_item, nothing_given};
pub use keeping::keep_more;
