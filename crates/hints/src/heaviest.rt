// The open item whose consequences weigh most.
ghost use Rattle.picks.specs.Picked.{Picked};

use crate::hints::with_orderings;
use chart::Chart;
use picks::heaviest;

// Its number; none where nothing is open.
pub fn heaviest_item(chart: &Chart, open_options: u32, open_orderings: u64) -> Option<usize>
    ensures { Picked open_options open_orderings chart.now.option_count chart.now.ordering_count result }
{
    let left = residual::start(chart, open_options, open_orderings);
    let held = with_orderings(chart, &left);
    heaviest(chart, &held, &left.orderings, open_options, open_orderings)
}
