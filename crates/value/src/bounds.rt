// What a search starts from.
ghost use Rattle.chart.specs.Chart.{by_slot};
ghost use Rattle.value.specs.Value.{Reached, Above, BoundsAs};

use crate::value::{best_value, dive};
use chart::Chart;
use graph::transposed;
use keeping::nothing_given;

// A ceiling over all relaxations, and the floor from which the search looks for one.
#[derive(Clone, Copy)]
pub struct Bounds {
    pub floor: u32,
    pub ceiling: u32,
}

// The best value of the sheet: from a first value on.
pub fn best_of_all(chart: &Chart) -> u32
    ensures { Reached (by_slot chart.now) result × Above (by_slot chart.now) result }
{
    let g = nothing_given();
    let floor = dive(chart, g);
    let back = transposed(&chart.rows, chart.option_count);
    best_value(chart, &back, g, floor)
}

// The upper limit of the whole sheet.
pub fn whole_limit(chart: &Chart) -> u32
    ensures { Above (by_slot chart.now) result }
{
    let g = nothing_given();
    let f = forced::force(chart, g);
    let h = half::half_decided(chart, &f);
    h.upper
}

// Without a tolerance the value comes first: the search then looks only for what reaches it. With one, a single search from nothing is enough.
pub fn bounds_of(chart: &Chart, tolerance: u32) -> Bounds
    ensures { BoundsAs (by_slot chart.now) tolerance result }
{
    if tolerance == 0 {
        let best = best_of_all(chart);
        return Bounds {
            floor: best,
            ceiling: best,
        };
    }
    Bounds {
        floor: 0,
        ceiling: whole_limit(chart),
    }
}
