// Graphs over slots, as tables of rows. For the crates above: slots handed in must be in range.
#![tactic(auto)]

mod table;

ghost use Rattle.std.specs.Prelude.{◌+◌, ◌≤◌, ◌<◌};
ghost use Rattle.graph.specs.Graph.{EndsAreSlots, WithOrderings, JoinedThrough, JoinedThroughAll};

use rows::Slots;
pub use table::transposed;

// The table with the kept orderings in it.
pub fn put_orderings(
    t: [u32; 32],
    kept_orderings: u64,
    first: &[u8],
    second: &[u8],
    n: usize,
    m: usize,
) -> [u32; 32]
    requires { EndsAreSlots n m first.now second.now }
    ensures { WithOrderings t kept_orderings first.now second.now m result }
{
    let mut table = t;
    for u in 0..m {
        let from = usize::from(first[u]);
        table[from] = table[from].put_if(usize::from(second[u]), kept_orderings.get(u));
    }
    table
}

// Every row joined through c.
pub fn join_through(t: [u32; 32], c: usize, n: usize) -> [u32; 32]
    requires { (n ≤ 32) × (c < 32) }
    ensures { JoinedThrough t c n result }
{
    let from = t[c];
    let mut table = t;
    for i in 0..n {
        table[i] = rows::join_if(t[i], from, t[i].get(c));
    }
    table
}

// Every row joined through every middle.
pub fn join_through_all(t: [u32; 32], middles: u32, n: usize) -> [u32; 32]
    requires { n ≤ 32 }
    ensures { JoinedThroughAll t middles n n result }
{
    let mut table = t;
    for c in 0..n {
        if middles.get(c) {
            let joined = join_through(table, c, n);
            table = joined;
        }
    }
    table
}
