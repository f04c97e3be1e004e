// Where items begin and end.
ghost use Rattle.std.specs.Prelude.{◌+◌, ◌≤◌, ◌<◌, length};

// The option at which ordering u begins or ends. It is a slot below 32 in any case; the remainder costs nothing and spares a promise.
pub fn end_at(ends: &[u8], u: usize) -> usize
    requires { u < length ends.now }
    ensures { result < 32 }
{
    usize::from(ends[u] % 32)
}

// The option at which an item begins or ends: an option at itself.
pub fn end_of(ends: &[u8], m: usize, item: usize) -> usize
    requires { (m ≤ length ends.now) × (item < 32 + m) }
    ensures { result < 32 }
{
    if item < 32 {
        return item;
    }
    end_at(ends, item - 32)
}
