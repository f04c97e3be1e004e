// What still holds something: the hints that the finder walks by.
ghost use Rattle.std.specs.Prelude.{◌≤◌, length};
ghost use Rattle.rows.specs.Sets.{Holds};
ghost use Rattle.chains.specs.Held.{holds_some, Soft};

use chart::Chart;
use rows::{Slots, set_where};

// The open ones of the first n items of which something is left.
pub fn holding<S: Slots>(left: &[u32], open_items: S, n: usize) -> S
    requires { (n ≤ S.width) × (n ≤ length left.now) }
    ensures { Holds (S.bits result) n (holds_some left.now (S.bits open_items)) }
{
    set_where(n, |i| open_items.get(i) && left[i] != 0)
}

// Row a holds b if an open ordering of a before b still holds something.
pub fn soft_of(chart: &Chart, left_orderings: &[u32; 64], open_orderings: u64) -> [u32; 32]
    ensures { Soft chart.now.firsts chart.now.seconds left_orderings.now open_orderings chart.now.ordering_count result }
{
    let set = holding(left_orderings, open_orderings, chart.ordering_count);
    chart.with_orderings([0; 32], set)
}
