// The order sheet as a record: its types, and in specs/ what is said of it: the rules of its lines, the record's rule, its text.
#![tactic(auto)]

mod answer;
mod count;
mod decision;
mod judged;
mod sheet;

pub use answer::{Answer, Refusal, number_of};
pub use count::{Number, Position, Slot};
pub use decision::{Decision, Decisions};
pub use judged::Judged;
pub use sheet::Sheet;
