// The shape of a line, byte by byte.
ghost use Rattle.std.specs.Prelude.{◌≡◌};
ghost use Rattle.shape.specs.Shape.{next_state, after_field, in_number, begin_line};

// The four kinds of line of a sheet, in their order.
#[derive(Clone, Copy)]
pub enum Section {
    Catalogue,
    Options,
    Orderings,
    Trailer,
}

// Where in a line the scan stands.
#[derive(Clone, Copy)]
pub enum State {
    // No byte of the line read.
    Start,
    // A field is over; this many fields follow it.
    Gap(u8),
    // A number begins; this many fields follow it.
    First(u8),
    // In a number: this many fields follow it, and at most this many digits more.
    Digit(u8, u8),
    // The line is over.
    Done,
    // No well-shaped line begins so.
    Dead,
}

// A line's first byte.
pub fn begin_line(sec: Section, b: u8) -> State
    ensures { result ≡ begin_line sec b }
{
    match (sec, b) {
        (Section::Catalogue, b'C' | b'X') => State::Gap(2),
        (Section::Options, b'F') => State::Gap(2),
        (Section::Orderings, b'U') => State::Gap(3),
        (Section::Trailer, b'T') => State::Gap(3),
        _ => State::Dead,
    }
}

// The byte after a field that k fields follow.
pub fn after_field(k: u8, b: u8) -> State
    ensures { result ≡ after_field k b }
{
    match (k, b) {
        (0, b'\n') => State::Done,
        (0, _) => State::Dead,
        (_, b' ') => State::First(k - 1),
        _ => State::Dead,
    }
}

// A byte in a number, after its first digit.
pub fn in_number(k: u8, m: u8, b: u8) -> State
    ensures { result ≡ in_number k m b }
{
    match b {
        b'0'..=b'9' if m == 0 => State::Dead,
        b'0'..=b'9' => State::Digit(k, m - 1),
        _ => after_field(k, b),
    }
}

// One byte of a line.
pub fn next_state(sec: Section, st: State, b: u8) -> State
    ensures { result ≡ next_state sec st b }
{
    match (st, b) {
        (State::Start, _) => begin_line(sec, b),
        (State::Gap(k), _) => after_field(k, b),
        (State::First(k), b'0') => State::Digit(k, 0),
        (State::First(k), b'1'..=b'9') => State::Digit(k, 4),
        (State::Digit(k, m), _) => in_number(k, m, b),
        _ => State::Dead,
    }
}
