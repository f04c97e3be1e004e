// The S, D and R lines of a report, printed on a page.
// For the crates above: the page must have room for what is printed, and the lists handed in as many entries as are counted.
#![tactic(auto)]

mod lists;

pub use lists::{put_options, put_orderings, put_places};
