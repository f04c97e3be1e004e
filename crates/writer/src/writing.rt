// Writing a sheet.
ghost use Rattle.std.specs.Prelude.{◌≡◌};
ghost use Rattle.writer.specs.Write.{not_written, write_answer, write_buffer};

use record::is_recorded;
use sheet::{Answer, Refusal, Sheet};
use text::{put_text, text_size};

// The answer of the writer, and how many bytes it wrote.
#[derive(Clone, Copy)]
pub struct Written {
    pub answer: Answer,
    pub size: usize,
}

// A refusal: place 0, 0 and no byte written.
fn not_written(why: Refusal) -> Written
    ensures { result ≡ not_written why }
{
    Written {
        answer: Answer::refused(why),
        size: 0,
    }
}

// Writes the text of a record at the start of a buffer and leaves every byte past it alone; a refusal leaves them all.
pub fn write(s: Sheet, out: &mut [u8]) -> Written
    ensures { (result ≡ write_answer s out.old) × (out.new ≡ write_buffer s out.old) }
{
    if !is_recorded(s) {
        return not_written(Refusal::NotRecorded);
    }
    if out.len() < text_size(&s) {
        return not_written(Refusal::OutputTooShort);
    }
    let size = put_text(&s, out);
    Written {
        answer: Answer::Accepted,
        size,
    }
}
