// The sequence of a chosen relaxation.
#![tactic(auto)]

mod answer;
mod edges;
mod whole;

pub use answer::{Sequenced, sequence};
