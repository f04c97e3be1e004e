// What crosses the boundary to C and Rust: answers as one number, lent outputs, places as bytes.
#![tactic(auto)]

mod outputs;
mod packed;
mod places_out;

pub use outputs::{is_accepted, lent, lent_both, with_list};
pub use packed::pack_answer;
pub use places_out::{places_in_use, put_places};
