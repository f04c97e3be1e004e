// Rows: a set of slots as the bits of one word; options in 32 bits, orderings in 64.
// For the crates above: a slot handed in must be one of the word's.
#![tactic(auto, unfolding(crate::specs::Bits::has, crate::specs::Bits::with, crate::specs::Bits::with_if))]

mod chosen;
mod ones;
mod options;

ghost use Rattle.std.specs.Prelude.{◌≡◌, ℕ, ◌<◌};
ghost use Rattle.rows.specs.Bits.{has, with, with_if};

pub use chosen::set_where;
pub use ones::Ones;
pub use options::{join, join_if, meet, turn};

// A set of slots, as the bits of a word.
pub trait Slots: Copy {
    // The word as a number, and how many slots it has.
    ghost bits: { Self → ℕ };

    ghost width: { ℕ };

    // Whether slot i is in the set.
    fn get(self, i: usize) -> bool
        requires { i < width }
        ensures { result ≡ has (bits self) i };

    // The set with slot i in it.
    fn put(self, i: usize) -> Self
        requires { i < width }
        ensures { bits result ≡ with (bits self) i };

    // The set with slot i in it, if asked.
    fn put_if(self, i: usize, yes: bool) -> Self
        requires { i < width }
        ensures { bits result ≡ with_if (bits self) i yes }
    {
        if yes { self.put(i) } else { self }
    }

    // No slot.
    fn none() -> Self
        ensures { bits result ≡ 0 };
}

// Each width has its own shift, so the two blocks are alike.
impl Slots for u32 {
    ghost bits = { λ x. x };

    ghost width = { 32 };

    fn get(self, i: usize) -> bool {
        (self >> i) % 2 == 1
    }

    fn put(self, i: usize) -> u32 {
        self | (1 << i)
    }

    fn none() -> u32 {
        0
    }
}

impl Slots for u64 {
    ghost bits = { λ x. x };

    ghost width = { 64 };

    fn get(self, i: usize) -> bool {
        (self >> i) % 2 == 1
    }

    fn put(self, i: usize) -> u64 {
        self | (1 << i)
    }

    fn none() -> u64 {
        0
    }
}
