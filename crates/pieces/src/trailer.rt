// The last line of a text.
ghost use Rattle.std.specs.Prelude.{◌≡◌, ◌≤◌, length};
ghost use Rattle.shape.specs.Trailer.{last_line, is_trailer};

use shape::{LastLine, Section, State, next_state};

// Finds the last whole line of a text.
pub fn last_line(s: &[u8]) -> LastLine
    ensures { (result ≡ last_line s.now) × (result.start ≤ length s.now) }
{
    let mut next: usize = 0;
    let mut start: usize = 0;
    let mut lines: usize = 0;
    for (i, b) in s.iter().enumerate() {
        if *b == b'\n' {
            start = next;
            next = i + 1;
            lines += 1;
        }
    }
    LastLine { start, lines }
}

// Whether a line is a well-shaped trailer.
pub fn is_trailer(line: &[u8]) -> bool
    ensures { result ≡ is_trailer line.now }
{
    let mut state = State::Start;
    for b in line {
        state = next_state(Section::Trailer, state, *b);
    }
    matches!(state, State::Done)
}
