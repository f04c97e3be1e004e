// Weights of sets of items.
ghost use Rattle.std.specs.Prelude.{◌≡◌, ◌+◌, ◌*◌, ◌≤◌, ◌<◌, get_or, length};
ghost use Rattle.chart.specs.Chart.{by_slot};
ghost use Rattle.rules.specs.Slots.{sum, pick, over};
ghost use Rattle.rows.specs.Bits.{has};
ghost use Rattle.half.specs.Half.{weight_of_sets};
ghost use Rattle.half.specs.Weights.{largest_sum};

use chart::Chart;
use rows::Slots;

// A weight if asked, and else nothing.
pub fn weight_if(yes: bool, w: u16) -> u32
    ensures { (result ≡ pick yes w) × (result ≤ 65535) }
{
    if yes { u32::from(w) } else { 0 }
}

// The weight of the first n slots that a set holds.
#[tactic(auto, using(crate::specs::laws::Weights::sum_more), unfolding(rules::specs::Slots::sum))]
pub fn weigh(set: u64, w: &[u16], n: usize) -> u32
    requires { (n ≤ 64) × (n ≤ length w.now) }
    ensures { (result ≡ over n (λ i. get_or w.now i 0) (has set)) × (result ≤ 65535 * n) }
{
    let mut total = 0u32;
    for i in 0..n {
        total += weight_if(set.get(i), w[i]);
    }
    total
}

// The weight of the first n slots.
#[tactic(auto, using(crate::specs::laws::Weights::sum_more), unfolding(rules::specs::Slots::sum))]
pub fn weigh_all(w: &[u16], n: usize) -> u32
    requires { (n ≤ 64) × (n ≤ length w.now) }
    ensures { (result ≡ sum n (λ i. get_or w.now i 0)) × (result ≤ 65535 * n) }
{
    let mut total = 0u32;
    for i in 0..n {
        total += u32::from(w[i]);
    }
    total
}

// The weight of a set of options and a set of orderings.
pub fn weigh_both(chart: &Chart, options: u32, orderings: u64) -> u32
    ensures { (result ≡ weight_of_sets (by_slot chart.now) (has options) (has orderings)) × (result ≤ largest_sum) }
{
    weigh(u64::from(options), &chart.weights, chart.option_count)
        + weigh(orderings, &chart.ordering_weights, chart.ordering_count)
}
