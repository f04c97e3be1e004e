// The rules are definitions and laws, in `specs/`. Code stands in the crates above.
#![tactic(auto)]
