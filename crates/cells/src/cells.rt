// The limits of one item.
ghost use Rattle.std.specs.Prelude.{◌≡◌, ◌&&◌, ◌||◌, ◌≤◌, ◌<◌, get_or};
ghost use Rattle.chart.specs.Chart.{by_slot};
ghost use Rattle.rows.specs.Bits.{has};
ghost use Rattle.rows.specs.Sets.{Holds};
ghost use Rattle.half.specs.Weights.{largest_sum};
ghost use Rattle.half.specs.Half.{clashes_in, OpenFits};
ghost use Rattle.cells.specs.Cells.{no_limit, touches_in, weight_with_orderings_in, option_limit_in, ordering_limit_in};

use chart::Chart;
use half::{Half, weigh, weigh_both};
use rows::Slots;

// What a value lies between, if an item is kept and if it is dropped.
#[derive(Clone, Copy)]
pub struct Limit {
    pub kept_lower: u32,
    pub kept_upper: u32,
    pub dropped_lower: u32,
    pub dropped_upper: u32,
}

// The options that clash with i: each is known before the other.
pub fn clash_row(t: &[u32; 32], i: usize, n: usize) -> u32
    requires { (n ≤ 32) × (i < 32) }
    ensures { Holds result n (clashes_in t.now i) }
{
    // Both rows are read before any test, so that the compiler leaves out the branch.
    rows::set_where(n, |j| {
        let after = t[i].get(j);
        let before = t[j].get(i);
        i != j && after && before
    })
}

// The orderings of a set that touch an option of a set.
pub fn touching(chart: &Chart, orderings: u64, options: u32) -> u64
    ensures { Holds result chart.now.ordering_count (touches_in (by_slot chart.now) orderings options) }
{
    rows::set_where(chart.ordering_count, |u| {
        let first = usize::from(chart.firsts[u]);
        let second = usize::from(chart.seconds[u]);
        let touches = options.get(first) || options.get(second);
        orderings.get(u) && touches
    })
}

// The weight of the open options of a set, and of the open orderings touching one of these.
pub fn weight_with_orderings(chart: &Chart, h: &Half, set: u32) -> u32
    ensures { (result ≡ weight_with_orderings_in (by_slot chart.now) h.now (has set)) × (result ≤ largest_sum) }
{
    let options = rows::meet(h.open_options, set);
    weigh_both(chart, options, touching(chart, h.open_orderings, options))
}

pub fn no_limit() -> Limit
    ensures { result ≡ no_limit }
{
    Limit {
        kept_lower: 0,
        kept_upper: 0,
        dropped_lower: 0,
        dropped_upper: 0,
    }
}

// The limits of an option; none if it is decided. What an option forgoes is worked out otherwise than what an ordering needs, so the
// two are no instances of one function.
pub fn option_limit(chart: &Chart, h: &Half, i: usize) -> Limit
    requires open_fits { OpenFits (by_slot chart.now) h.now × (i < chart.now.option_count) }
    ensures { result ≡ option_limit_in (by_slot chart.now) h.now i }
{
    if !h.open_options.get(i) {
        return no_limit();
    }
    let clash = clash_row(&h.known, i, chart.option_count);
    let charged = weight_with_orderings(chart, h, clash);
    let forgone = weight_with_orderings(chart, h, 0u32.put(i));
    Limit {
        kept_lower: h.lower + u32::from(chart.weights[i]),
        kept_upper: h.upper - charged,
        dropped_lower: h.lower,
        dropped_upper: h.upper - forgone,
    }
}

// The limits of an ordering; none if it is decided.
pub fn ordering_limit(chart: &Chart, h: &Half, u: usize) -> Limit
    requires open_fits { OpenFits (by_slot chart.now) h.now × (u < chart.now.ordering_count) }
    ensures { result ≡ ordering_limit_in (by_slot chart.now) h.now u }
{
    if !h.open_orderings.get(u) {
        return no_limit();
    }
    let first = usize::from(chart.firsts[u]);
    let second = usize::from(chart.seconds[u]);
    let before = clash_row(&h.known, first, chart.option_count);
    let after = clash_row(&h.known, second, chart.option_count);
    let charged = weight_with_orderings(chart, h, rows::join(before, after));
    let ends = rows::meet(h.open_options, 0u32.put(first).put(second));
    let needed = weigh(u64::from(ends), &chart.weights, chart.option_count);
    let gain = u32::from(chart.ordering_weights[u]);
    Limit {
        kept_lower: h.lower + gain + needed,
        kept_upper: h.upper - charged,
        dropped_lower: h.lower,
        dropped_upper: h.upper - gain,
    }
}
