// A decision list from its bytes.
ghost use Rattle.std.specs.Prelude.{◌≡◌, ◌+◌, ◌-◌, ◌≤◌, get_or};
ghost use Rattle.std.specs.List.{list_all};
ghost use Rattle.rules.specs.Slots.{list_of};
ghost use Rattle.decisions.specs.Decisions.{choice_of, decisions_of, is_decision, are_decisions};

use pieces::byte_at;
use sheet::{Decision, Decisions, Slot};

// No `TryFrom`: every list is answered for, and a byte past 2, which `are_decisions` turns away, counts as open.
fn choice_of(byte: u8) -> Decision
    ensures { result ≡ choice_of byte }
{
    match byte {
        1 => Decision::Kept,
        2 => Decision::Dropped,
        _ => Decision::Open,
    }
}

// The decision about a slot, where the decisions of its kind begin at byte `at`.
fn decision_at(bytes: &[u8], at: usize, slot: Slot) -> Decision
    requires { (at ≤ 32) × (1 ≤ slot.0) }
    ensures { result ≡ choice_of (get_or bytes.now (at + (slot.0 - 1)) 0) }
{
    choice_of(byte_at(bytes, at + usize::from(slot.0 - 1)))
}

// The decisions about the N slots of one kind.
fn decisions_at<const N: usize>(bytes: &[u8], at: usize) -> [Decision; N]
    requires { (at ≤ 32) × (N ≤ 64) }
    ensures { result ≡ list_of N (λ i. choice_of (get_or bytes.now (at + i) 0)) }
{
    // By `as`: a slot is below 64, and try_from would bring a refusal that cannot come.
    let mut decisions = [Decision::Open; N];
    for i in 0..N {
        decisions[i] = decision_at(bytes, at, Slot(i as u8 + 1));
    }
    decisions
}

pub fn decisions_of(bytes: &[u8]) -> Decisions
    ensures { result ≡ decisions_of bytes.now }
{
    Decisions {
        options: decisions_at(bytes, 0),
        orderings: decisions_at(bytes, 32),
    }
}

// Whether no byte is past 2.
fn none_is_past_two(bytes: &[u8]) -> bool
    ensures { result ≡ list_all is_decision bytes.now }
{
    bytes.iter().all(|byte| *byte < 3)
}

// Whether the bytes spell a decision list.
pub fn are_decisions(bytes: &[u8]) -> bool
    ensures { result ≡ are_decisions bytes.now }
{
    bytes.len() == 96 && none_is_past_two(bytes)
}
