// From catalogue numbers to slots. For the crates above: counts handed in must be those of a record.
#![tactic(auto)]

ghost use Rattle.std.specs.Prelude.{◌≡◌, ◌≤◌, length};
ghost use Rattle.slots.specs.Slots.{NumbersDiffer, TableOf, SlotsBy};

// The slot of every number; n, and no Option, for those that nobody subscribed: the definition `SlotOf` says so.
pub fn slot_table(numbers: &[u8], n: usize) -> [u8; 256]
    requires { NumbersDiffer n numbers.now × (n ≤ 32) }
    ensures { TableOf n numbers.now result }
{
    // By `as`: a slot is at most 32, and try_from would bring a refusal that cannot come.
    let mut table = [n as u8; 256];
    for (i, number) in numbers[..n].iter().enumerate() {
        table[usize::from(*number)] = i as u8;
    }
    table
}

// The slots of the first m of the numbers in `ends`, whatever numbers the table is of.
pub fn slots_of<'a>(table: &'a [u8], ends: &'a [u8], m: usize) -> [u8; 64]
    requires { (length table.now ≡ 256) × (m ≤ 64) × (m ≤ length ends.now) }
    ensures { SlotsBy table.now ends.now m result }
{
    let mut slots = [0; 64];
    for (u, end) in ends[..m].iter().enumerate() {
        slots[u] = table[usize::from(*end)];
    }
    slots
}
