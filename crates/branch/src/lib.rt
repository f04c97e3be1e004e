// The pass that names the relaxation: items in slot order, kept and after that dropped, from anything found so far.
// For the crates above: the sets handed in must be apart.
#![tactic(auto)]

mod branching;
mod first;

pub use branching::branch;
