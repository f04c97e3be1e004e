// The first open item: options in slot order, then orderings in slot order.
ghost use Rattle.std.specs.Prelude.{◌≤◌};
ghost use Rattle.branch.specs.First.{FirstOf, FirstItem};

use rows::Slots;

// The smallest slot below n that the set holds.
pub fn first_of<S: Slots>(set: S, n: usize) -> Option<usize>
    requires { n ≤ S.width }
    ensures { FirstOf (S.bits set) n result }
{
    for i in 0..n {
        if set.get(i) {
            return Some(i);
        }
    }
    None
}

// The number of the first open item.
pub fn first_item(open_options: u32, open_orderings: u64, n: usize, m: usize) -> Option<usize>
    requires { (n ≤ 32) × (m ≤ 64) }
    ensures { FirstItem open_options open_orderings n m result }
{
    if let Some(i) = first_of(open_options, n) {
        return Some(i);
    }
    let u = first_of(open_orderings, m)?;
    Some(32 + u)
}
