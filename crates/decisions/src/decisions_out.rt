// A decision list to its bytes.
ghost use Rattle.std.specs.Prelude.{◌≡◌, ◌+◌, ◌≤◌, length, get_or};
ghost use Rattle.rules.specs.Slots.{list_of};
ghost use Rattle.given.specs.Given.{undecided};
ghost use Rattle.print.specs.Put.{put};
ghost use Rattle.decisions.specs.Decisions.{byte_of, decision_bytes};

use sheet::{Decision, Decisions};

fn byte_of(decision: Decision) -> u8
    ensures { result ≡ byte_of decision }
{
    decision as u8
}

// The decisions about the N slots of one kind, from byte `at` on.
fn put_list<const N: usize>(decisions: &[Decision; N], out: &mut [u8], at: usize)
    requires { at + N ≤ length out.old }
    ensures { out.new ≡ put at (list_of N (λ i. byte_of (get_or decisions.now i undecided))) out.old }
{
    for (i, decision) in decisions.iter().enumerate() {
        out[at + i] = byte_of(*decision);
    }
}

pub fn put_decisions(decisions: Decisions, out: &mut [u8])
    requires { 96 ≤ length out.old }
    ensures { out.new ≡ put 0 (decision_bytes decisions) out.old }
{
    put_list(&decisions.options, out, 0);
    put_list(&decisions.orderings, out, 32);
}
