// The walk back from the level that closes a chain: at each level the item that holds most.
ghost use Rattle.std.specs.Prelude.{◌+◌, ◌<◌, IfSome};

use crate::chain::{Chain, Hints};
use crate::level::{Level, goal_of};
use crate::member::end_at;
use chart::Chart;
use rows::{Ones, Slots};

// Whether ordering u begins in one set and ends in the other.
fn leads(chart: &Chart, u: usize, from: u32, to: u32) -> bool
    requires { u < 64 }
{
    from.get(end_at(&chart.firsts, u)) && to.get(end_at(&chart.seconds, u))
}

// The item of a level that holds most, if one holds anything: the first of them, options before orderings.
fn best_of(
    chart: &Chart,
    left_orderings: &[u32; 64],
    held: &[u32; 32],
    level: Level,
) -> Option<usize>
    ensures { IfSome result (λ i. i < 32 + chart.now.ordering_count) }
{
    let mut best: Option<usize> = None;
    let mut most: u32 = 0;
    for i in Ones(level.options) {
        if held[i] > most {
            most = held[i];
            best = Some(i);
        }
    }
    for u in 0..chart.ordering_count {
        if left_orderings[u] > most && leads(chart, u, level.from, level.seconds) {
            most = left_orderings[u];
            best = Some(32 + u);
        }
    }
    best
}

// From the closing level down to the first one; item x itself stands first in the chain.
pub fn walk_back(
    chart: &Chart,
    after: &[u32; 32],
    left_orderings: &[u32; 64],
    hints: &Hints,
    page: &[Level; 64],
    x: usize,
    last: usize,
) -> Option<Chain>
    requires { (x < 32 + chart.now.ordering_count) × (last < 60) }
{
    // A chain holds items as bytes. By `as`: an item is below 96, and try_from would bring a refusal that cannot come.
    let mut items: [u8; 64] = [0; 64];
    items[0] = x as u8;
    let mut item = x;
    for l in (1..=last).rev() {
        let leading = page[l].leading_to(goal_of(chart, after, item));
        item = best_of(chart, left_orderings, &hints.held, leading)?;
        items[l] = item as u8;
    }
    Some(Chain::new(items, last + 1))
}
