// Taking as much from the consequences of every member of a chain.
ghost use Rattle.std.specs.Prelude.{◌≤◌, length};
ghost use Rattle.graph.specs.Graph.{EndsAreSlots};
ghost use Rattle.links.specs.Links.{AllNamed};
ghost use Rattle.residual.specs.Taken.{LeftIn};
ghost use Rattle.residual.specs.TakenAll.{Measured, Gave};

use crate::taking::Ends;

// Each member's consequences give e in all: what others took from them counts. The arrays and the counts stay apart: this call is told of in
// docs/DECISIONS.md and may ask for no chart.
pub fn take_all(
    first: &[u8],
    second: &[u8],
    n: usize,
    m: usize,
    options: &mut [u32],
    orderings: &mut [u32],
    chain: &[u8],
    len: usize,
    e: u32,
    was: [u32; 64],
)
    requires chain_fits { EndsAreSlots n m first.now second.now × AllNamed chain.now len n m × (len ≤ length chain.now) × (len ≤ 64) × LeftIn n m options.old orderings.old }
    requires measured { Measured first.now second.now n m options.old orderings.old chain.now len e was × (e ≤ 4259775) }
    ensures { Gave first.now second.now n m chain.now e len options.old orderings.old options.new orderings.new }
{
    let ends = Ends {
        first,
        second,
        option_count: n,
        ordering_count: m,
    };
    for q in 0..len {
        let x = chain[q];
        let held = ends.held_by(options, orderings, x);
        if was[q] < held + e {
            ends.take(options, orderings, x, held + e - was[q]);
        }
    }
}
