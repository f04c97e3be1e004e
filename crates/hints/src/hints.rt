// What the finder goes by: hints, of which nothing is promised.
ghost use Rattle.std.specs.Prelude.{◌≡◌, ◌+◌, ◌≤◌, length};

use chains::{Hints, end_at};
use chart::Chart;
use residual::Left;
use rows::Slots;

// What an ordering holds counts at both its ends; sums that would not fit go round.
pub fn with_orderings(chart: &Chart, left: &Left) -> [u32; 32] {
    let mut held = left.options;
    for u in 0..chart.ordering_count {
        let weight = left.orderings[u];
        let a = end_at(&chart.firsts, u);
        held[a] = held[a].wrapping_add(weight);
        let b = end_at(&chart.seconds, u);
        held[b] = held[b].wrapping_add(weight);
    }
    held
}

pub fn hints_of(
    chart: &Chart,
    open_options: u32,
    open_orderings: u64,
    left: &Left,
    charged: u32,
) -> Hints
    ensures { result.charged ≡ charged }
{
    let held = with_orderings(chart, left);
    Hints {
        charged,
        positive: chains::holding(&held, open_options, chart.option_count),
        held,
        soft: chains::soft_of(chart, &left.orderings, open_orderings),
    }
}

// They are worked out again after a charge of e; nothing moves if nothing was charged.
pub fn hints_after(
    chart: &Chart,
    hints: &mut Hints,
    e: u32,
    open_options: u32,
    open_orderings: u64,
    left: &Left,
)
    requires { hints.old.charged + e ≤ 10551136 }
    ensures { hints.new.charged ≡ hints.old.charged + e }
{
    if e > 0 {
        let charged = hints.charged + e;
        *hints = hints_of(chart, open_options, open_orderings, left, charged);
    }
}

// An item that gave nothing more is left for the next one.
pub fn next_item(x: usize, e: u32) -> usize {
    if e == 0 && x < 96 { x + 1 } else { x }
}

// Whether item x is open and still holds something.
fn holds_some(positive: u32, orderings: &[u32], m: usize, x: usize) -> bool
    requires { m ≤ length orderings.now }
{
    if x < 32 {
        return positive.get(x);
    }
    if x < 32 + m {
        return 0 < orderings[x - 32];
    }
    false
}

// The first item from x on that is open and still holds something.
pub fn next_holding(positive: u32, orderings: &[u32], m: usize, x: usize) -> Option<usize>
    requires { (m ≤ length orderings.now) × (m ≤ 64) }
{
    (x..32 + m).find(|y| holds_some(positive, orderings, m, *y))
}
