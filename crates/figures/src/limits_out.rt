// Limits to their numbers.
ghost use Rattle.std.specs.Prelude.{◌≡◌, ◌+◌, ◌*◌, ◌≤◌, length};
ghost use Rattle.print.specs.Put.{put};
ghost use Rattle.entries.specs.Parts.{parts};
ghost use Rattle.figures.specs.Limits.{four_of, four_at, limit_numbers, contradictions};

use cells::Limit;
use limits::Limited;

// The four limits of an item from `at` on.
fn put_four(limit: Limit, out: &mut [u32], at: usize)
    requires { at + 4 ≤ length out.old }
    ensures { out.new ≡ put at (four_of limit) out.old }
{
    out[at] = limit.kept_lower;
    out[at + 1] = limit.kept_upper;
    out[at + 2] = limit.dropped_lower;
    out[at + 3] = limit.dropped_upper;
}

// Four for each of N items.
fn put_fours<const N: usize>(limits: &[Limit; N], out: &mut [u32], at: usize)
    requires { at + 4 * N ≤ length out.old }
    ensures { out.new ≡ put at (parts N (four_at limits.now)) out.old }
{
    for (i, limit) in limits.iter().enumerate() {
        put_four(*limit, out, at + 4 * i);
    }
}

pub fn put_limits(limited: &Limited, out: &mut [u32])
    requires { 386 ≤ length out.old }
    ensures { out.new ≡ put 0 (limit_numbers limited.now) out.old }
{
    out[0] = limited.lower;
    out[1] = limited.upper;
    put_fours(&limited.options, out, 2);
    put_fours(&limited.orderings, out, 130);
}

pub fn contradictions(contradiction: bool) -> usize
    ensures { (result ≡ contradictions contradiction) × (result ≤ 1) }
{
    usize::from(contradiction)
}
