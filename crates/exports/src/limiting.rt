// Forced decisions and limits of a half-decided sheet.
ghost use Rattle.std.specs.Prelude.{◌≡◌};
ghost use Rattle.exports.specs.Limits.{limits_in, limits_result, forced_bytes, limits_numbers};

use decisions::{are_decisions, decisions_of, put_decisions};
use fields::record_in;
use figures::{contradictions, put_limits};
use limits::LimitsAnswer;
use wire::{is_accepted, lent_both, pack_answer, with_list};

// The limits that bytes ask for.
fn limits_in(bytes: &[u8], list: &[u8]) -> LimitsAnswer
    ensures { result ≡ limits_in bytes.now list.now }
{
    let sheet = record_in(bytes);
    let limited = limits::limits(sheet, decisions_of(list));
    let answer = with_list(
        limited.answer,
        record::is_recorded(sheet),
        are_decisions(list),
    );
    LimitsAnswer { answer, ..limited }
}

// Writes the forced decisions and the limits, and answers 1 for a contradiction.
#[unsafe(no_mangle)]
pub extern "C" fn wharftoken_limits(
    record: &[u8],
    decisions: &[u8],
    forced: &mut [u8],
    limits: &mut [u32],
) -> u64
    ensures { (result ≡ limits_result «record».now decisions.now forced.old limits.old)
        × ((forced.new ≡ forced_bytes «record».now decisions.now forced.old limits.old)
        × (limits.new ≡ limits_numbers «record».now decisions.now forced.old limits.old)) }
{
    let limited = limits_in(record, decisions);
    let answer = lent_both(limited.answer, forced.len(), 96, limits.len(), 386);
    if !is_accepted(answer) {
        return pack_answer(answer, 0);
    }
    put_decisions(limited.limits.decisions, forced);
    put_limits(&limited.limits, limits);
    pack_answer(answer, contradictions(limited.limits.contradiction))
}
