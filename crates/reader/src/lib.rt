// Reading an order sheet into its record.
#![tactic(auto)]

mod reading;

pub use lines::Reading;
pub use reading::read;
