// The search of a record at a tolerance.
ghost use Rattle.exports.specs.Search.{SearchShown};

use decisions::put_decisions;
use fields::record_in;
use figures::put_totals;
use wire::{is_accepted, lent_both, pack_answer};

// Writes the decisions of a relaxation within the tolerance of the best, its value and a ceiling.
#[unsafe(no_mangle)]
pub extern "C" fn wharftoken_search(
    record: &[u8],
    tolerance: u32,
    decisions: &mut [u8],
    totals: &mut [u32],
) -> u64
    ensures { SearchShown «record».now tolerance decisions.old totals.old result decisions.new totals.new }
{
    let found = search::search(record_in(record), tolerance);
    let answer = lent_both(found.answer, decisions.len(), 96, totals.len(), 2);
    if !is_accepted(answer) {
        return pack_answer(answer, 0);
    }
    put_decisions(found.decisions, decisions);
    put_totals(found.value, found.ceiling, totals);
    pack_answer(answer, 0)
}
