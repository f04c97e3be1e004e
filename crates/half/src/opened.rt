// A half-decided sheet after forcing.
ghost use Rattle.std.specs.Prelude.{◌||◌, not, ◌+◌, ◌≤◌, ◌<◌};
ghost use Rattle.chart.specs.Chart.{by_slot};
ghost use Rattle.rows.specs.Bits.{has};
ghost use Rattle.rows.specs.Sets.{Holds};
ghost use Rattle.half.specs.Half.{HalfDecidedAs};

use crate::weights::{weigh_all, weigh_both};
use chart::Chart;
use forced::Forced;
use rows::Slots;

// What the limits are worked out from: the open items, what is known, the weight kept and the weight not dropped.
#[derive(Clone, Copy)]
pub struct Half {
    pub open_options: u32,
    pub open_orderings: u64,
    pub known: [u32; 32],
    pub lower: u32,
    pub upper: u32,
}

// The items below n that are neither kept nor dropped, options or orderings.
pub fn open_items<S: Slots>(kept: S, dropped: S, n: usize) -> S
    requires { n ≤ S.width }
    ensures { Holds (S.bits result) n (λ i. not (has (S.bits kept) i || has (S.bits dropped) i)) }
{
    rows::set_where(
        n,
        |i|
            requires { i < S.width }
        { !(kept.get(i) || dropped.get(i)) },
    )
}

// The half-decided sheet that forced decisions leave.
pub fn half_decided(chart: &Chart, f: &Forced) -> Half
    ensures { HalfDecidedAs (by_slot chart.now) f.now result }
{
    let n = chart.option_count;
    let m = chart.ordering_count;
    let whole = weigh_all(&chart.weights, n) + weigh_all(&chart.ordering_weights, m);
    Half {
        open_options: open_items(f.kept, f.dropped, n),
        open_orderings: open_items(f.kept_orderings, f.dropped_orderings, m),
        known: f.known,
        lower: weigh_both(chart, f.kept, f.kept_orderings),
        upper: whole - weigh_both(chart, f.dropped, f.dropped_orderings),
    }
}
