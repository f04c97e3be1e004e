// The member of a set that has the greatest value.
ghost use Rattle.std.specs.Prelude.{ℕ, ◌≤◌, ◌<◌};
ghost use Rattle.picks.specs.Picked.{OneOf};

use rows::Slots;

// The first member below n of the greatest value.
pub fn greatest<F: Fn(usize) -> u32>(set: u64, n: usize, value: F) -> Option<usize>
    requires few { n ≤ 64 }
    requires callable { (k : ℕ) → k < n → F.pre value k }
    ensures { OneOf set n n result }
{
    let mut best: Option<usize> = None;
    let mut most: u32 = 0;
    for i in 0..n {
        if set.get(i) {
            let here = value(i);
            if best.is_none() || here > most {
                best = Some(i);
                most = here;
            }
        }
    }
    best
}
