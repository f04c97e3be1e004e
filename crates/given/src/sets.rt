// The items that a decision list keeps or drops, as sets.
ghost use Rattle.std.specs.Prelude.{◌≤◌};
ghost use Rattle.given.specs.Given.{decided_as, Gives};

use rows::set_where;
use sheet::{Decision, Decisions};

// What a decision list keeps and drops by itself, before anything is forced.
#[derive(Clone, Copy)]
pub struct Given {
    pub kept: u32,
    pub dropped: u32,
    pub kept_orderings: u64,
    pub dropped_orderings: u64,
}

// All four sets of a list, for n options and m orderings.
pub fn given_sets(d: Decisions, n: usize, m: usize) -> Given
    requires { (n ≤ 32) × (m ≤ 64) }
    ensures { Gives (decided_as d) n m result }
{
    Given {
        kept: set_where(n, |i| d.options[i] == Decision::Kept),
        dropped: set_where(n, |i| d.options[i] == Decision::Dropped),
        kept_orderings: set_where(m, |u| d.orderings[u] == Decision::Kept),
        dropped_orderings: set_where(m, |u| d.orderings[u] == Decision::Dropped),
    }
}
