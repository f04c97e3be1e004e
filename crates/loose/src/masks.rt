// The options at which some orderings begin, or end.
ghost use Rattle.std.specs.Prelude.{◌≤◌, ◌<◌};
ghost use Rattle.links.specs.Links.{AreSlots};
ghost use Rattle.loose.specs.Loose.{EndsOf};

use rows::Slots;

pub fn ends_of(orderings: u64, ends: &[u8], option_count: usize, ordering_count: usize) -> u32
    requires { AreSlots option_count ordering_count ends.now × (ordering_count ≤ 64) }
    ensures { EndsOf orderings ends.now ordering_count result }
{
    let mut options = 0u32;
    for (u, end) in ends[..ordering_count].iter().enumerate() {
        options = options.put_if(usize::from(*end), orderings.get(u));
    }
    options
}
