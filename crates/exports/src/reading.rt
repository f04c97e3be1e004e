// A sheet's text to the bytes of its record.
ghost use Rattle.std.specs.Prelude.{◌≡◌};
ghost use Rattle.exports.specs.Read.{read_result, read_record};

use fields_out::put_record;
use wire::{is_accepted, lent, pack_answer};

// Reads a sheet and writes the bytes of its record.
#[unsafe(no_mangle)]
pub extern "C" fn wharftoken_read(text: &[u8], record: &mut [u8]) -> u64
    ensures { (result ≡ read_result text.now «record».old) × («record».new ≡ read_record text.now «record».old) }
{
    let reading = reader::read(text);
    let answer = lent(reading.answer, record.len(), 1894);
    if !is_accepted(answer) {
        return pack_answer(answer, 0);
    }
    // Taken out only here: a refusal copies no record.
    let sheet = reading.sheet;
    put_record(&sheet, record);
    pack_answer(answer, 0)
}
