// The table of rows turned over: what is known before each option.
ghost use Rattle.std.specs.Prelude.{◌≤◌, ◌<◌, length};
ghost use Rattle.rows.specs.Sets.{Holds, cell};
ghost use Rattle.graph.specs.Transposed.{Transposed};

use rows::{Slots, set_where};

// The options below n whose row holds j.
pub fn column(known: &[u32], j: usize, n: usize) -> u32
    requires { (n ≤ 32) × (n ≤ length known.now) × (j < n) }
    ensures { Holds result n (λ i. cell known.now i j) }
{
    set_where(n, |i| known[i].get(j))
}

// Entry j holds i exactly if entry i held j, for slots below n; nothing else is held.
pub fn transposed(known: &[u32], n: usize) -> [u32; 32]
    requires { (n ≤ 32) × (n ≤ length known.now) }
    ensures { Transposed known.now n n result }
{
    let mut table = [0; 32];
    for j in 0..n {
        table[j] = column(known, j, n);
    }
    table
}
