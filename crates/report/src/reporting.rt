// The report in a lent buffer.
ghost use Rattle.std.specs.Prelude.{◌≡◌};
ghost use Rattle.report.specs.Answer.{too_short, report_answer, report_buffer};

use crate::page::put_report;
use sheet::{Answer, Refusal};

// The answer, and how many bytes the report has.
#[derive(Clone, Copy)]
pub struct Reported {
    pub answer: Answer,
    pub size: usize,
}

// A refusal of the buffer: no byte of it is written.
fn too_short() -> Reported
    ensures { result ≡ too_short }
{
    Reported {
        answer: Answer::refused(Refusal::OutputTooShort),
        size: 0,
    }
}

// Writes the report of a sheet at the start of a buffer and leaves every byte past it alone. A refused sheet has its `E` line for a
// report; only a buffer that is shorter than the report is refused, as 13, and keeps all its bytes.
pub fn report(text: &[u8], out: &mut [u8]) -> Reported
    ensures { (result ≡ report_answer text.now out.old) × (out.new ≡ report_buffer text.now out.old) }
{
    let mut page = [0u8; 1024];
    let size = put_report(text, &mut page);
    if out.len() < size {
        return too_short();
    }
    out[..size].copy_from_slice(&page[..size]);
    Reported {
        answer: Answer::Accepted,
        size,
    }
}
