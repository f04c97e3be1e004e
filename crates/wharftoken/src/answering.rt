// From a whole input to a whole output.
ghost use Rattle.std.specs.Prelude.{IfSome, OnErr, OnOk};
ghost use Rattle.std.specs.Io.KnownBytes.{Appends};
ghost use Rattle.output.specs.Gained.{GainsPart};
ghost use Rattle.report.specs.Report.{report_of};

use std::io;
use std::io::{Read, Write};

// One byte more than a sheet may have: what is longer is refused, however long it is.
const ENOUGH: usize = 8193;

// Reads a sheet to its end, or until it is too long, and writes its report. After an error, of reading or of writing, no more than a
// first part of the report was written.
pub fn answer<R: Read, W: Write>(input: &mut R, output: &mut W) -> io::Result<()>
    ensures whole { OnOk result (IfSome (R.remaining input.old)
        (λ sheet. Appends (W.contents output.old) (W.contents output.new) (report_of sheet))) }
    ensures part { OnErr result (IfSome (R.remaining input.old)
        (λ sheet. GainsPart (W.contents output.old) (W.contents output.new) (report_of sheet))) }
{
    let mut sheet = [0u8; ENOUGH];
    let n = input::fill(input, &mut sheet)?;
    let mut text = [0u8; 1024];
    let reported = report::report(&sheet[..n], &mut text);
    output::put_all(output, &text[..reported.size])
}
