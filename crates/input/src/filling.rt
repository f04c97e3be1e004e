// Reading until a buffer is full or the input ends.
ghost use Rattle.std.specs.Prelude.{◌≡◌, ◌≢◌, ◌≤◌, IfOk, IfErr, IfSome, OnErr, length, take};
ghost use Rattle.std.specs.Io.KnownBytes.{Consumes};
ghost use Rattle.std.specs.IoError.{error_kind};
ghost use Rattle.input.specs.Lost.{LosesPart};

use std::io;
use std::io::{ErrorKind, Read};

// Fills the buffer from its start with the input's next bytes, and answers how many there are: fewer than the buffer has room for only
// where the input ends. A read that a signal interrupts is tried again; after 2^64 - 1 tries it gives up.
pub fn fill<R: Read>(input: &mut R, buf: &mut [u8]) -> io::Result<usize>
    ensures within { IfOk result (λ n. n ≤ length buf.new) }
    ensures bytes { IfOk result (λ n. IfSome (R.remaining input.old) (λ xs. take n buf.new ≡ take (length buf.new) xs)) }
    ensures consumed { IfOk result (λ n. Consumes (R.remaining input.old) (R.remaining input.new) (take n buf.new)) }
    ensures lost { OnErr result (LosesPart (R.remaining input.old) (R.remaining input.new) buf.new) }
    ensures retried { IfErr result (λ e. error_kind e ≢ ErrorKind.Interrupted) }
{
    let mut filled = 0;
    for _ in 0..u64::MAX {
        if filled >= buf.len() {
            return Ok(filled);
        }
        match input.read(&mut buf[filled..]) {
            Ok(0) => return Ok(filled),
            Ok(n) => filled += n,
            Err(e) => {
                if e.kind() != ErrorKind::Interrupted {
                    return Err(e);
                }
            }
        }
    }
    Err(io::Error::from(ErrorKind::TimedOut))
}
