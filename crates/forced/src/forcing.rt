// Everything that a decision list forces.
ghost use Rattle.chart.specs.Chart.{by_slot};
ghost use Rattle.forced.specs.Forced.{ForcedBy};

use crate::parts::{contradicts, dropped_options, dropped_orderings, kept_options};
use chart::Chart;
use given::Given;

#[derive(Clone, Copy)]
pub struct Forced {
    pub kept: u32,
    pub dropped: u32,
    pub kept_orderings: u64,
    pub dropped_orderings: u64,
    pub known: [u32; 32],
    pub contradiction: bool,
}

// No repetition is needed: kept options follow from what is given, known before from those, dropped options from that, dropped orderings from that.
pub fn force(chart: &Chart, g: Given) -> Forced
    ensures { ForcedBy (by_slot chart.now) g result }
{
    let n = chart.option_count;
    let m = chart.ordering_count;
    let kept_orderings = g.kept_orderings;
    let kept = kept_options(chart, g.kept, kept_orderings);
    let start = chart.with_orderings(chart.rows, kept_orderings);
    let known = graph::join_through_all(start, kept, n);
    let dropped = dropped_options(g.dropped, &known, n);
    let dropped_orderings = dropped_orderings(chart, g.dropped_orderings, dropped, &known);
    Forced {
        kept,
        dropped,
        kept_orderings,
        dropped_orderings,
        known,
        contradiction: contradicts(kept, dropped, kept_orderings, dropped_orderings, n, m),
    }
}
