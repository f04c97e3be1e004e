// The best relaxation of a sheet, and at any tolerance a value and a ceiling.
#![tactic(auto)]

mod found;
mod sheet_search;

pub use sheet_search::{Searched, search};
