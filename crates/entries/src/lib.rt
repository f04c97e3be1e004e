// Lists in a lent output and from bytes, entry by entry: definitions and laws, in `specs/`. No code stands here.
#![tactic(auto)]
