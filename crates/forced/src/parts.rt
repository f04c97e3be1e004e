// The forced decisions, part by part: each set follows from the sets before it.
ghost use Rattle.std.specs.Prelude.{◌≡◌, ◌&&◌, ◌||◌, ◌≤◌, ◌<◌, get_or};
ghost use Rattle.rules.specs.Slots.{some_below};
ghost use Rattle.rows.specs.Bits.{has};
ghost use Rattle.rows.specs.Sets.{Holds};
ghost use Rattle.forced.specs.Forced.{KeptWithEnds};

use chart::Chart;
use rows::Slots;

// The kept options: those given, and both options of a kept ordering.
pub fn kept_options(chart: &Chart, given: u32, kept_orderings: u64) -> u32
    ensures { KeptWithEnds given kept_orderings chart.now.firsts chart.now.seconds chart.now.ordering_count result }
{
    let mut kept = given;
    for u in 0..chart.ordering_count {
        let yes = kept_orderings.get(u);
        let first = usize::from(chart.firsts[u]);
        let second = usize::from(chart.seconds[u]);
        kept = kept.put_if(first, yes).put_if(second, yes);
    }
    kept
}

// The dropped options: those given, and those known before themselves. Here and in `is_against` a row is read before any test, so that the
// compiler leaves out the branch.
pub fn dropped_options(given: u32, t: &[u32; 32], n: usize) -> u32
    requires { n ≤ 32 }
    ensures { Holds result n (λ i. has given i || has (get_or t.now i 0) i) }
{
    rows::set_where(n, |i| {
        let before_itself = t[i].get(i);
        given.get(i) || before_itself
    })
}

// Whether an ordering a before b has lost an option, or b is known before a.
pub fn is_against(dropped: u32, t: &[u32; 32], a: usize, b: usize) -> bool
    requires { (a < 32) × (b < 32) }
    ensures { result ≡ (has dropped a || (has dropped b || has (get_or t.now b 0) a)) }
{
    let known = t[b].get(a);
    dropped.get(a) || dropped.get(b) || known
}

// The dropped orderings: those given, and those against what is known.
pub fn dropped_orderings(chart: &Chart, given: u64, dropped: u32, t: &[u32; 32]) -> u64
    ensures { Holds result chart.now.ordering_count (λ u. has given u || (has dropped (get_or chart.now.firsts u 0) || (has dropped (get_or chart.now.seconds u 0) || has (get_or t.now (get_or chart.now.seconds u 0) 0) (get_or chart.now.firsts u 0)))) }
{
    rows::set_where(chart.ordering_count, |u| {
        let first = usize::from(chart.firsts[u]);
        let second = usize::from(chart.seconds[u]);
        given.get(u) || is_against(dropped, t, first, second)
    })
}

// Whether two sets meet.
#[tactic(auto, using(rows::specs::laws::Slots::some_more), unfolding(rules::specs::Slots::some_below))]
pub fn meets(a: u64, b: u64, n: usize) -> bool
    requires { n ≤ 64 }
    ensures { result ≡ some_below n (λ i. has a i && has b i) }
{
    let mut meet = false;
    for i in 0..n {
        meet |= a.get(i) && b.get(i);
    }
    meet
}

// Whether an option or an ordering is both kept and dropped.
pub fn contradicts(
    kept: u32,
    dropped: u32,
    kept_orderings: u64,
    dropped_orderings: u64,
    n: usize,
    m: usize,
) -> bool
    requires { (n ≤ 32) × (m ≤ 64) }
    ensures { result ≡ (some_below n (λ i. has kept i && has dropped i) || some_below m (λ u. has kept_orderings u && has dropped_orderings u)) }
{
    meets(u64::from(kept), u64::from(dropped), n) || meets(kept_orderings, dropped_orderings, m)
}
