// Answers as parts of a line of text.
use sheet::Answer;
use std::io;
use std::io::Write;

pub fn print_number<W: Write>(to: &mut W, n: usize) -> io::Result<()> {
    write!(to, "{n} ")
}

// The number, the line and the column; three zeros where nothing is refused.
pub fn print_answer<W: Write>(to: &mut W, a: Answer) -> io::Result<()> {
    match a {
        Answer::Accepted => write!(to, "0 0 0 "),
        Answer::Refused { place, why } => {
            write!(
                to,
                "{} {} {} ",
                sheet::number_of(why),
                place.line,
                place.column
            )
        }
    }
}

pub fn print_bool<W: Write>(to: &mut W, b: bool) -> io::Result<()> {
    write!(to, "{}", if b { "yes " } else { "no " })
}

pub fn end_line<W: Write>(to: &mut W) -> io::Result<()> {
    writeln!(to)
}

// Whether a buffer begins with these n bytes, and the text has no others.
pub fn begins(out: &[u8], n: usize, text: &[u8]) -> bool {
    n <= out.len() && &out[..n] == text
}

// Whether every byte from n on is `#`.
pub fn untouched(out: &[u8], n: usize) -> bool {
    out.iter().skip(n).all(|b| *b == b'#')
}
