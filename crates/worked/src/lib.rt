// The requirements' worked cases are one list under one claim, in `specs/`. No code stands here.
#![tactic(auto)]
