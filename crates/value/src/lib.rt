// The best value of a sheet, whichever open item is taken up next, and what a search starts from.
#![tactic(auto)]

mod bounds;
mod value;

pub use bounds::{Bounds, bounds_of};
