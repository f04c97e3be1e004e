// Items by number, against the rules' items: definitions and laws, in `specs/`. Code stands in the crates above.
#![tactic(auto)]
