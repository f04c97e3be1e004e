// The best value alone, taking up open items in any order.
ghost use Rattle.std.specs.Prelude.{◌≤◌};
ghost use Rattle.chart.specs.Chart.{by_slot};
ghost use Rattle.half.specs.Weights.{largest_sum};
ghost use Rattle.keeping.specs.Sets.{Apart};
ghost use Rattle.value.specs.Value.{ValuedAs, Reached};

use chart::Chart;
use given::Given;
use hints::heaviest_item;
use keeping::{drop_item, keep_item};
use picks::pick;
use settle::settle;

// One dive: of the open items the heaviest is kept, again and again; what is kept in the end is a consistent relaxation, and a first value.
pub fn dive(chart: &Chart, g: Given) -> u32
    requires { Apart (by_slot chart.now) g }
    ensures { Reached (by_slot chart.now) result }
{
    let Some(x) = settle(chart, g, 0) else {
        return 0;
    };
    let Some(i) = heaviest_item(chart, x.open_options, x.open_orderings) else {
        return x.lower;
    };
    dive(chart, keep_item(x.given, i))
}

// The greater of the floor and the best value among what agrees: an open item is kept, and after that dropped, from what the first came to.
// `back` is the catalogue's table turned over; which item is taken up goes by it.
pub fn best_value(chart: &Chart, back: &[u32; 32], g: Given, floor: u32) -> u32
    requires { Apart (by_slot chart.now) g × (floor ≤ largest_sum) }
    ensures { ValuedAs (by_slot chart.now) floor g result }
{
    let Some(x) = settle(chart, g, floor + 1) else {
        return floor;
    };
    let Some(i) = pick(chart, back, x.open_options, x.open_orderings) else {
        return floor.max(x.lower);
    };
    let kept = best_value(chart, back, keep_item(x.given, i), floor);
    best_value(chart, back, drop_item(x.given, i), kept)
}
