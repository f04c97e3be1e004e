// Numbers and lines, printed on a page: a lent buffer, from its start on.
// For the crates above: the page must have room for what is printed.
#![tactic(auto)]

mod number;
mod page;

pub use number::decimal_width;
pub use page::Page;
