// The graph of a full decision, and whether it is one of a consistent relaxation.
ghost use Rattle.std.specs.Prelude.{◌≡◌, ◌≤◌};
ghost use Rattle.rules.specs.Slots.{some_below};
ghost use Rattle.rows.specs.Sets.{cell};
ghost use Rattle.sequence.specs.Edges.{BetweenKept, lacks};

use chart::Chart;
use rows::Slots;

// The table without the rows and columns of options that are not kept.
pub fn between_kept(t: &[u32; 32], kept: u32, n: usize) -> [u32; 32]
    requires { n ≤ 32 }
    ensures { BetweenKept t.now kept n result }
{
    let mut between = [0u32; 32];
    for i in 0..n {
        between[i] = rows::join_if(0, rows::meet(t[i], kept), kept.get(i));
    }
    between
}

// Does a kept ordering lack one of its options?
#[tactic(auto, using(rows::specs::laws::Slots::some_more), unfolding(rules::specs::Slots::some_below))]
pub fn lacks_option(chart: &Chart, kept: u32, kept_orderings: u64) -> bool
    ensures { result ≡ some_below chart.now.ordering_count (lacks kept kept_orderings chart.now.firsts chart.now.seconds) }
{
    let mut lacking = false;
    for u in 0..chart.ordering_count {
        let first = usize::from(chart.firsts[u]);
        let second = usize::from(chart.seconds[u]);
        lacking |= kept_orderings.get(u) && !(kept.get(first) && kept.get(second));
    }
    lacking
}

// Does an option stand before itself?
pub fn has_cycle(t: &[u32; 32], n: usize) -> bool
    requires { n ≤ 32 }
    ensures { result ≡ some_below n (λ i. cell t.now i i) }
{
    t.iter().take(n).enumerate().any(|(i, row)| row.get(i))
}
