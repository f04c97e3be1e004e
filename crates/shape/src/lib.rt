// How a line of an order sheet is shaped, byte by byte.
#![tactic(auto)]

mod number;
mod scan;
mod shape;
mod trailer;

pub use number::Numbers;
pub use scan::{Place, Scanned, first_misshapen, section_of};
pub use shape::{Section, State, next_state};
pub use trailer::LastLine;
