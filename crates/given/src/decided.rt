// Decisions about items, from the sets of those kept and dropped.
ghost use Rattle.std.specs.Prelude.{◌≡◌, ◌≤◌};
ghost use Rattle.rules.specs.Forced.{decision_of};
ghost use Rattle.rows.specs.Bits.{has};
ghost use Rattle.given.specs.Given.{undecided, choice_of};
ghost use Rattle.given.specs.Filled.{filled};

use rows::Slots;
use sheet::Decision;

// An item's decision.
pub fn decided(kept: bool, dropped: bool) -> Decision
    ensures { result ≡ choice_of (decision_of kept dropped) }
{
    match (kept, dropped) {
        (true, _) => Decision::Kept,
        (false, true) => Decision::Dropped,
        (false, false) => Decision::Open,
    }
}

// The decisions about the first n of N items; the rest are open.
pub fn all_decided<S: Slots, const N: usize>(kept: S, dropped: S, n: usize) -> [Decision; N]
    requires { (n ≤ N) × (n ≤ S.width) }
    ensures { result ≡ filled N n (λ i. choice_of (decision_of (has (S.bits kept) i) (has (S.bits dropped) i))) undecided }
{
    let mut list = [Decision::Open; N];
    for i in 0..n {
        list[i] = decided(kept.get(i), dropped.get(i));
    }
    list
}
