// Texts: the report on a sheet, and a record written back.
ghost use Rattle.std.specs.Prelude.{◌≡◌};
ghost use Rattle.report.specs.Answer.{report_answer, report_buffer};
ghost use Rattle.writer.specs.Write.{write_answer, write_buffer};
ghost use Rattle.wire.specs.Packed.{packed_answer};
ghost use Rattle.fields.specs.Record.{record_in};

use fields::record_in;
use wire::pack_answer;

// Writes the report on a sheet and answers its length.
#[unsafe(no_mangle)]
pub extern "C" fn wharftoken_report(text: &[u8], out: &mut [u8]) -> u64
    ensures { (result ≡ packed_answer (report_answer text.now out.old).answer (report_answer text.now out.old).size)
        × (out.new ≡ report_buffer text.now out.old) }
{
    let reported = report::report(text, out);
    pack_answer(reported.answer, reported.size)
}

// Writes the text of a record and answers its length.
#[unsafe(no_mangle)]
pub extern "C" fn wharftoken_write(record: &[u8], out: &mut [u8]) -> u64
    ensures { (result ≡ packed_answer (write_answer (record_in «record».now) out.old).answer (write_answer (record_in «record».now) out.old).size)
        × (out.new ≡ write_buffer (record_in «record».now) out.old) }
{
    let written = writer::write(record_in(record), out);
    pack_answer(written.answer, written.size)
}
