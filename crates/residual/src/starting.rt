// Before anything is charged: the weights of the open items, and nothing elsewhere.
ghost use Rattle.std.specs.Prelude.{◌≤◌, length};
ghost use Rattle.residual.specs.Taken.{SmallEnough};
ghost use Rattle.residual.specs.Started.{StartsAs};

use chart::Chart;
use rows::Slots;

// What is left to charge of each item's weight: never more than the greatest weight that a record could hold.
#[derive(Clone, Copy)]
pub struct Left {
    pub options: [u32; 32],
    pub orderings: [u32; 64],
    pub ghost small: { SmallEnough options orderings },
}

// The weights of the items of a set, and nothing from slot n on.
pub fn weights_of<S: Slots, const N: usize>(set: S, weights: &[u16], n: usize) -> [u32; N]
    requires { (n ≤ N) × (n ≤ S.width) × (n ≤ length weights.now) }
    ensures { StartsAs (S.bits set) weights.now N n result }
{
    let mut left: [u32; N] = [0; N];
    for (i, w) in weights[..n].iter().enumerate() {
        left[i] = half::weight_if(set.get(i), *w);
    }
    left
}

pub fn start(chart: &Chart, open_options: u32, open_orderings: u64) -> Left
    ensures options { StartsAs open_options chart.now.weights 32 chart.now.option_count result.options }
    ensures orderings { StartsAs open_orderings chart.now.ordering_weights 64 chart.now.ordering_count result.orderings }
{
    Left {
        options: weights_of(open_options, &chart.weights, chart.option_count),
        orderings: weights_of(
            open_orderings,
            &chart.ordering_weights,
            chart.ordering_count,
        ),
    }
}
