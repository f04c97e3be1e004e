// What a decision list gives: its kept and its dropped items as sets, and such sets as a list; and whether it is open where it must be
// or where it must not.
// For the crates above: counts handed in must be those of a record. They stay numbers: a bound in a clause is plainer than a type
// that each index would have to be taken out of.
#![tactic(auto)]

mod choice;
mod decided;
mod open;
mod sets;

pub use choice::{is_dropped, is_kept, is_open};
pub use decided::all_decided;
pub use open::{has_decision_past, has_open_item};
pub use sets::{Given, given_sets};
