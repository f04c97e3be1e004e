// Placing options one after another.
ghost use Rattle.std.specs.Prelude.{◌≡◌, ◌&&◌, ◌≤◌, ◌<◌, length, replicate, IfSome};
ghost use Rattle.rules.specs.Slots.{some_below};
ghost use Rattle.rows.specs.Bits.{has};
ghost use Rattle.rows.specs.Sets.{cell};
ghost use Rattle.placing.specs.Next.{is_ready, found_slot, smaller_slot, smallest_below, numbers_placed, number, written};

use rows::Slots;
use sheet::Number;

// Does an option that is left stand before x?
fn waits(t: &[u32; 32], left: u32, x: usize, n: usize) -> bool
    requires { (n ≤ 32) × (x < 32) }
    ensures { result ≡ some_below n (λ y. has left y && cell t.now y x) }
{
    t.iter()
        .take(n)
        .enumerate()
        .any(|(y, row)| left.get(y) && row.get(x))
}

// Is x left, and does it wait for none that is left?
fn can_be_next(t: &[u32; 32], left: u32, x: usize, n: usize) -> bool
    requires { (n ≤ 32) × (x < 32) }
    ensures { result ≡ is_ready t.now n left x }
{
    left.get(x) && !waits(t, left, x, n)
}

// The slot with the smaller number of i and the best so far, if there is one.
fn smaller(best: Option<usize>, i: usize, numbers: &[u8]) -> usize
    requires best { IfSome best (λ b. b < length numbers.now) }
    requires slot { i < length numbers.now }
    ensures { result ≡ smaller_slot numbers.now best i }
{
    match best {
        Some(best) if numbers[best] < numbers[i] => best,
        _ => i,
    }
}

// The slot with the smallest number of those that can be next, if there is one.
fn next(t: &[u32; 32], left: u32, numbers: &[u8], n: usize) -> Option<usize>
    requires { (n ≤ 32) × (n ≤ length numbers.now) }
    ensures found { result ≡ found_slot (smallest_below t.now numbers.now n left n) }
    ensures within { IfSome result (λ x. x < n) }
{
    let mut best = None;
    for i in 0..n {
        if can_be_next(t, left, i, n) {
            best = Some(smaller(best, i, numbers));
        }
    }
    best
}

// The numbers of the kept options place by place; zeros past the last.
pub fn place_all(t: &[u32; 32], kept: u32, numbers: &[u8], n: usize) -> [Number; 32]
    requires { (n ≤ 32) × (n ≤ length numbers.now) }
    ensures { result ≡ written (replicate 32 (number 0)) 0 (numbers_placed t.now numbers.now n n kept) }
{
    let mut places = [Number(0); 32];
    let mut left = kept;
    for at in 0..n {
        let Some(slot) = next(t, left, numbers, n) else {
            return places;
        };
        places[at] = Number(numbers[slot]);
        left = rows::turn(left, slot);
    }
    places
}
