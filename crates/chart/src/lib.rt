// A sheet's options and orderings by slot, with what the catalogue says of them: all that forcing and the search work on.
#![tactic(auto)]

mod chart;

pub use chart::Chart;
