// The two kinds of wrong decision list (14).
ghost use Rattle.std.specs.Prelude.{◌≡◌, ◌≤◌, get_or};
ghost use Rattle.given.specs.Given.{decided, undecided, some_past, some_open, decided_past, open_within};

use crate::choice::is_open;
use sheet::{Decision, Decisions};

// Is an entry past the first n decided?
pub fn is_decided_past<const N: usize>(entries: &[Decision; N], n: usize) -> bool
    ensures { result ≡ some_past N n (λ i. decided (get_or entries.now i undecided)) }
{
    entries
        .iter()
        .enumerate()
        .any(|(i, entry)| n <= i && !is_open(*entry))
}

// Is the list not open at an entry past n options and m orderings?
#[tactic(auto, unfolding(crate::specs::Given::decided_past))]
pub fn has_decision_past(d: Decisions, n: usize, m: usize) -> bool
    ensures { result ≡ decided_past d n m }
{
    is_decided_past(&d.options, n) || is_decided_past(&d.orderings, m)
}

// Is one of the first n entries open?
pub fn is_open_within<const N: usize>(entries: &[Decision; N], n: usize) -> bool
    requires { n ≤ N }
    ensures { result ≡ some_open n (λ i. decided (get_or entries.now i undecided)) }
{
    entries.iter().take(n).any(|entry| is_open(*entry))
}

// Is the list open at one of n options and m orderings?
#[tactic(auto, unfolding(crate::specs::Given::open_within))]
pub fn has_open_item(d: Decisions, n: usize, m: usize) -> bool
    requires { (n ≤ 32) × (m ≤ 64) }
    ensures { result ≡ open_within d n m }
{
    is_open_within(&d.options, n) || is_open_within(&d.orderings, m)
}
