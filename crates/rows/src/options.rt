// Sets of options put together.
#![tactic(auto, unfolding(crate::specs::Bits::joined, crate::specs::Bits::joined_if, crate::specs::Bits::met, crate::specs::Bits::turned))]

ghost use Rattle.std.specs.Prelude.{◌≡◌, ◌<◌};
ghost use Rattle.rows.specs.Bits.{joined, met, joined_if, turned};

// What either row holds.
pub fn join(a: u32, b: u32) -> u32
    ensures { result ≡ joined a b }
{
    a | b
}

// What a holds, and b too, if asked.
pub fn join_if(a: u32, b: u32, yes: bool) -> u32
    ensures { result ≡ joined_if a b yes }
{
    if yes { join(a, b) } else { a }
}

// What both rows hold.
pub fn meet(a: u32, b: u32) -> u32
    ensures { result ≡ met a b }
{
    a & b
}

// The row with slot i turned: out if it was in.
pub fn turn(row: u32, i: usize) -> u32
    requires { i < 32 }
    ensures { result ≡ turned row i }
{
    row ^ (1 << i)
}
