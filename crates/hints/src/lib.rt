// Which item a chain is looked for from next, and which open item's consequences weigh most: hints, of which nothing is promised but that an item is open.
#![tactic(auto)]

mod heaviest;
mod hints;

pub use heaviest::heaviest_item;
pub use hints::{hints_after, hints_of, next_holding, next_item};
