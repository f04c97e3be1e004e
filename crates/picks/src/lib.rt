// Which open item the search takes up next: hints, on which no answer rests, except that what is picked is open.
#![tactic(auto)]

mod greatest;
mod picked;
mod score;

pub use picked::{heaviest, pick};
