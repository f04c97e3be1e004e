// The library for C and Rust: numbers and slices only.
#![tactic(auto)]

mod limiting;
mod reading;
mod searches;
mod sequences;
mod texts;
