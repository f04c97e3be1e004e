// The recursive branch over kept and dropped choices.
ghost use Rattle.std.specs.Prelude.{◌+◌, ◌≤◌};
ghost use Rattle.chart.specs.Chart.{by_slot};
ghost use Rattle.sheet.specs.Limits.{largest_value};
ghost use Rattle.half.specs.Weights.{largest_sum};
ghost use Rattle.keeping.specs.Sets.{Apart};
ghost use Rattle.branch.specs.Branch.{Branched};

use crate::first::first_item;
use chart::Chart;
use given::Given;
use keeping::{drop_item, keep_item};
use settle::settle;
use so_far::SoFar;

// The sheet is settled; then the first open item in slot order, options before orderings, is kept, and after that dropped. Nothing is worth
// more than the ceiling, so a find that reaches it is the last.
pub fn branch(chart: &Chart, g: Given, found: &mut SoFar, tolerance: u32, ceiling: u32)
    requires { Apart (by_slot chart.now) g × (found.old.goal ≤ largest_sum + 1) × (tolerance ≤ largest_value) }
    ensures { Branched (by_slot chart.now) tolerance ceiling g found.old found.new }
{
    let want = found.wanted(tolerance);
    if ceiling < want {
        return;
    }
    let Some(x) = settle(chart, g, want) else {
        return;
    };
    let first = first_item(
        x.open_options,
        x.open_orderings,
        chart.option_count,
        chart.ordering_count,
    );
    let Some(i) = first else {
        found.take(x.given, x.lower);
        return;
    };
    branch(chart, keep_item(x.given, i), found, tolerance, ceiling);
    branch(chart, drop_item(x.given, i), found, tolerance, ceiling);
}
