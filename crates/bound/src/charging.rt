// Chains charged one after another.
ghost use Rattle.std.specs.Prelude.{◌+◌, ◌≤◌};
ghost use Rattle.chart.specs.Chart.{by_slot};
ghost use Rattle.residual.specs.Left.{rest};
ghost use Rattle.half.specs.Weights.{largest_sum};
ghost use Rattle.bound.specs.Bound.{ChargesMore, KeepsCharged, BoundedAs};

use chains::{Hints, find};
use charge::charge;
use chart::Chart;
use hints::{hints_after, hints_of, next_holding, next_item};
use residual::{Left, start};

// What is open, and how much is enough.
#[derive(Clone, Copy)]
pub struct Round {
    pub options: u32,
    pub orderings: u64,
    pub enough: u32,
}

// A chain of at most `most` items through item x, if one is found: what is charged for it.
fn charge_one(
    chart: &Chart,
    known: &[u32; 32],
    after: &[u32; 32],
    hints: &Hints,
    x: usize,
    most: usize,
    left: &mut Left,
) -> u32
    requires { most ≤ 60 }
    ensures { ChargesMore (by_slot chart.now) known.now result (rest left.old) (rest left.new) }
{
    let Some(chain) = find(chart, known, after, hints, &left.orderings, x, most) else {
        return 0;
    };
    charge(chart, known, chain.items(), left)
}

// As long as there are chains through an item, then through the next. Each takes all that one of its members holds, so 96 items leave at most
// 192 turns.
fn charge_items(
    chart: &Chart,
    known: &[u32; 32],
    after: &[u32; 32],
    round: Round,
    most: usize,
    left: &mut Left,
    hints: &mut Hints,
)
    requires { (most ≤ 60) × (round.enough ≤ largest_sum + 1) × (hints.old.charged ≤ 10551136) }
    ensures { KeepsCharged (by_slot chart.now) known.now hints.old.charged hints.new.charged (rest left.old) (rest left.new) }
{
    let mut x: usize = 0;
    for _ in 0..192 {
        if round.enough <= hints.charged {
            return;
        }
        let Some(y) = next_holding(hints.positive, &left.orderings, chart.ordering_count, x) else {
            return;
        };
        let e = charge_one(chart, known, after, hints, y, most, left);
        hints_after(chart, hints, e, round.options, round.orderings, left);
        x = next_item(y, e);
    }
}

// Pairs first, then threes, then chains of any length: short ones leave the most to the others. It stops as soon as enough is charged.
fn charge_rounds(
    chart: &Chart,
    known: &[u32; 32],
    after: &[u32; 32],
    round: Round,
    left: &mut Left,
) -> u32
    requires { round.enough ≤ largest_sum + 1 }
    ensures { KeepsCharged (by_slot chart.now) known.now 0 result (rest left.old) (rest left.new) }
{
    let mut hints = hints_of(chart, round.options, round.orderings, left, 0);
    charge_items(chart, known, after, round, 2, left, &mut hints);
    charge_items(chart, known, after, round, 3, left, &mut hints);
    charge_items(chart, known, after, round, 60, left, &mut hints);
    hints.charged
}

// What was charged, and what is left of each item's weight.
#[derive(Clone, Copy)]
pub struct Charged {
    pub charged: u32,
    pub left: Left,
}

// Nothing is charged where nothing need be.
pub fn bound(
    chart: &Chart,
    known: &[u32; 32],
    after: &[u32; 32],
    open_options: u32,
    open_orderings: u64,
    enough: u32,
) -> Charged
    requires { enough ≤ largest_sum + 1 }
    ensures { BoundedAs (by_slot chart.now) known.now open_options open_orderings result }
{
    let mut left = start(chart, open_options, open_orderings);
    let mut charged: u32 = 0;
    if enough > 0 {
        let round = Round {
            options: open_options,
            orderings: open_orderings,
            enough,
        };
        charged = charge_rounds(chart, known, after, round, &mut left);
    }
    Charged { charged, left }
}
