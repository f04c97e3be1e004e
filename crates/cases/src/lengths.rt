// Buffers of every length, from none to two bytes more than the text.
use crate::shown::{begins, end_line, print_answer, print_bool, print_number, untouched};
use sheet::Sheet;
use std::io;
use std::io::Write;

pub const TEXT: [u8; 60] =
    *b"C 3 1\nX 2 4\nF 1 5\nF 2 3\nF 3 4\nF 4 2\nU 1 3 6\nU 2 1 1\nT 3 7 9\n";

// Writes into the first n bytes of a buffer of `#`.
fn one_length<W: Write>(to: &mut W, s: Sheet, n: usize) -> io::Result<()> {
    let mut out = [b'#'; 80];
    let end = n.min(out.len());
    let w = writer::write(s, &mut out[..end]);
    print_number(to, n)?;
    print_answer(to, w.answer)?;
    print_number(to, w.size)?;
    print_bool(to, untouched(&out, w.size))?;
    if 0 < w.size {
        print_bool(to, begins(&out, w.size, &TEXT))?;
    }
    end_line(to)
}

pub fn each_length<W: Write>(to: &mut W, s: Sheet) -> io::Result<()> {
    for n in 0..63 {
        one_length(to, s, n)?;
    }
    Ok(())
}
