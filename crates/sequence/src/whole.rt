// The sequence of a full decision, from what is given.
ghost use Rattle.std.specs.Prelude.{◌≡◌};
ghost use Rattle.chart.specs.Chart.{by_slot};
ghost use Rattle.sequence.specs.Sequenced.{PlacedBy};

use crate::edges::{between_kept, has_cycle, lacks_option};
use chart::Chart;
use given::Given;
use placing::place_all;
use sheet::Number;

// The sequence, if the decision is a consistent relaxation.
pub fn sequence_of(chart: &Chart, numbers: &[u8; 32], g: Given) -> Option<[Number; 32]>
    ensures { PlacedBy (by_slot chart.now) numbers.now g result }
{
    let n = chart.option_count;
    let between = between_kept(&chart.rows, g.kept, n);
    let edges = chart.with_orderings(between, g.kept_orderings);
    let paths = graph::join_through_all(edges, g.kept, n);
    if lacks_option(chart, g.kept, g.kept_orderings) || has_cycle(&paths, n) {
        return None;
    }
    Some(place_all(&edges, g.kept, numbers, n))
}
