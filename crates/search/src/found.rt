// What a whole search comes to.
ghost use Rattle.std.specs.Prelude.{◌≤◌};
ghost use Rattle.chart.specs.Chart.{by_slot};
ghost use Rattle.sheet.specs.Limits.{largest_value};
ghost use Rattle.search.specs.Search.{FoundBy};

use branch::branch;
use chart::Chart;
use keeping::nothing_given;
use so_far::{Kept, SoFar};
use value::bounds_of;

// The relaxation that answers, as sets, with its value and the ceiling.
#[derive(Clone, Copy)]
pub struct Found {
    pub kept: Kept,
    pub value: u32,
    pub ceiling: u32,
}

// The search from nothing decided. The ceiling is the lesser of the one over all and the value with the tolerance.
pub fn found_in(chart: &Chart, tolerance: u32) -> Found
    requires { tolerance ≤ largest_value }
    ensures { FoundBy (by_slot chart.now) tolerance result }
{
    let bounds = bounds_of(chart, tolerance);
    let g = nothing_given();
    let mut found = SoFar::nothing_found(bounds.floor);
    branch(chart, g, &mut found, tolerance, bounds.ceiling);
    let value = found.worth();
    Found {
        kept: found.kept(),
        value,
        ceiling: bounds.ceiling.min(value + tolerance),
    }
}
