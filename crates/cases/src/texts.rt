// One answer for each text, and the text again where it is accepted.
use crate::shown::{begins, end_line, print_answer, print_bool, print_number, untouched};
use sheet::{Answer, Sheet};
use std::io;
use std::io::Write;

// Writes a record into a buffer of `#` and prints the size, and whether the bytes are those of the text and the others untouched.
fn write_back<W: Write>(to: &mut W, s: Sheet, text: &[u8]) -> io::Result<()> {
    let mut out = [b'#'; 8192];
    let w = writer::write(s, &mut out);
    print_answer(to, w.answer)?;
    print_number(to, w.size)?;
    print_bool(to, begins(&out, w.size, text))?;
    print_bool(to, untouched(&out, w.size))
}

fn one_text<W: Write>(to: &mut W, text: &[u8]) -> io::Result<()> {
    let r = reader::read(text);
    print_answer(to, r.answer)?;
    print_number(to, r.sheet.catalogue_lines)?;
    print_number(to, r.sheet.option_count)?;
    print_number(to, r.sheet.ordering_count)?;
    if matches!(r.answer, Answer::Accepted) {
        write_back(to, r.sheet, text)?;
    }
    end_line(to)
}

// Each text ends with a byte 255, or with the input.
pub fn each_text<W: Write>(to: &mut W, all: &[u8]) -> io::Result<()> {
    for text in all.split_inclusive(|b| *b == 255) {
        one_text(to, text.strip_suffix(&[255]).unwrap_or(text))?;
    }
    Ok(())
}
