// The first byte of the lines before the trailer that fits no well-shaped line.
ghost use Rattle.std.specs.Prelude.{◌≡◌};
ghost use Rattle.shape.specs.Scan.{section_of, first_misshapen};

use crate::shape::{Section, State, next_state};

// A line and a column, from 1.
#[derive(Clone, Copy)]
pub struct Place {
    pub line: usize,
    pub column: usize,
}

// The first misshapen place with the byte that stands there, if there is one.
// Not an `Option` of the two: callers outside and the theorems of the place name this type and its two cases.
#[derive(Clone, Copy)]
pub enum Scanned {
    Clean,
    At(Place, u8),
}

// The section of a line that stands before the trailer.
pub fn section_of(f: usize, u: usize, line: usize) -> Section
    ensures { result ≡ section_of f u line }
{
    if line < f {
        Section::Catalogue
    } else if line < u {
        Section::Options
    } else {
        Section::Orderings
    }
}

// The first byte of the lines before the trailer that no well-shaped line of its section could have there, with its place.
pub fn first_misshapen(s: &[u8], f: usize, u: usize) -> Scanned
    ensures { result ≡ first_misshapen f u s.now }
{
    let mut start: usize = 0;
    let mut line: usize = 1;
    'lines: loop {
        let section = section_of(f, u, line);
        let mut state = State::Start;
        for (i, b) in s[start..].iter().enumerate() {
            state = next_state(section, state, *b);
            match state {
                State::Dead => {
                    let column = i + 1;
                    break 'lines Scanned::At(Place { line, column }, *b);
                }
                State::Done => {
                    start += i + 1;
                    line += 1;
                    continue 'lines;
                }
                _ => {}
            }
        }
        break 'lines Scanned::Clean;
    }
}
