// An answer as one number.
ghost use Rattle.std.specs.Prelude.{◌≡◌, ◌<◌};
ghost use Rattle.wire.specs.Packed.{packed, packed_answer, Fits};

use sheet::Answer;

// Four small numbers, sixteen bits each. By `as`: u64 has no From<usize>.
fn pack(number: u64, line: usize, column: usize, count: usize) -> u64
    requires { (number < 65536) × ((line < 65536) × ((column < 65536) × (count < 65536))) }
    ensures { result ≡ packed number line column count }
{
    count as u64 + 65536 * (column as u64 + 65536 * (line as u64 + 65536 * number))
}

// A refusal shows its number and its place, a success its count.
pub fn pack_answer(answer: Answer, count: usize) -> u64
    requires { Fits answer count }
    ensures { result ≡ packed_answer answer count }
{
    match answer {
        Answer::Accepted => pack(0, 0, 0, count),
        Answer::Refused { place, why } => {
            pack(sheet::number_of(why) as u64, place.line, place.column, 0)
        }
    }
}
