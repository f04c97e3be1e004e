// The set of the slots that pass a test.
ghost use Rattle.std.specs.Prelude.{ℕ, ◌≡◌, ◌<◌, ◌≤◌, false};
ghost use Rattle.rows.specs.Bits.{has};

use crate::Slots;

// Those below n.
#[tactic(auto, using(crate::specs::laws::Bits::has_none, crate::specs::laws::Sets::has_put_same, crate::specs::laws::Sets::has_put_other))]
pub fn set_where<S: Slots, F: Fn(usize) -> bool>(n: usize, test: F) -> S
    requires within { n ≤ S.width }
    requires callable { (k : ℕ) → k < n → F.pre test k }
    ensures below { (k : ℕ) → k < n → F.post test k (has (S.bits result) k) }
    ensures above { (k : ℕ) → n ≤ k → has (S.bits result) k ≡ false }
{
    let mut set = S::none();
    for i in 0..n {
        set = set.put_if(i, test(i));
    }
    set
}
