// The sequence of a full decision, place by place.
ghost use Rattle.std.specs.Prelude.{◌≡◌};
ghost use Rattle.exports.specs.Sequence.{sequence_in, sequence_result, sequence_places};

use decisions::{are_decisions, decisions_of};
use fields::record_in;
use sequence::Sequenced;
use wire::{is_accepted, lent, pack_answer, places_in_use, put_places, with_list};

// The sequence that bytes ask for.
fn sequence_in(bytes: &[u8], list: &[u8]) -> Sequenced
    ensures { result ≡ sequence_in bytes.now list.now }
{
    let sheet = record_in(bytes);
    let sequenced = sequence::sequence(sheet, decisions_of(list));
    let answer = with_list(
        sequenced.answer,
        record::is_recorded(sheet),
        are_decisions(list),
    );
    Sequenced {
        answer,
        ..sequenced
    }
}

// Writes the catalogue number at each place and answers how many places are not 0: one for each kept option.
#[unsafe(no_mangle)]
pub extern "C" fn wharftoken_sequence(record: &[u8], decisions: &[u8], places: &mut [u8]) -> u64
    ensures { (result ≡ sequence_result «record».now decisions.now places.old) × (places.new ≡ sequence_places «record».now decisions.now places.old) }
{
    let sequenced = sequence_in(record, decisions);
    let answer = lent(sequenced.answer, places.len(), 32);
    if !is_accepted(answer) {
        return pack_answer(answer, 0);
    }
    put_places(sequenced.places, places);
    pack_answer(answer, places_in_use(sequenced.places))
}
