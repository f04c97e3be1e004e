// A page: a lent buffer, printed on from its start.
ghost use Rattle.std.specs.Prelude.{[], ◌∷◌, ◌≡◌};
ghost use Rattle.shape.specs.LineText.{decimal, line_text};
ghost use Rattle.print.specs.Page.{Room, Printed};

use crate::number::decimal_width;

// The first `at` bytes are printed.
#[derive(Drop)]
pub struct Page<'a> {
    bytes: &'a mut [u8],
    at: usize,
}

impl<'a> Page<'a> {
    // A page with nothing on it.
    pub fn new(bytes: &'a mut [u8]) -> Page<'a>
        ensures same { result.bytes.ghost_name ≡ bytes.entry.ghost_name }
        ensures bytes { result.bytes.now ≡ bytes.old }
        ensures at { result.at ≡ 0 }
    {
        Page { bytes, at: 0 }
    }

    // How many bytes are printed.
    pub fn len(&self) -> usize
        ensures { result ≡ self.now.at }
    {
        self.at
    }

    // Prints a byte.
    pub fn put(&mut self, byte: u8)
        requires { Room self.old (byte ∷ []) }
        ensures { Printed self.old self.new (byte ∷ []) }
    {
        self.bytes[self.at] = byte;
        self.at += 1;
    }

    // Prints a number, its last digit first.
    pub fn put_number(&mut self, n: usize)
        requires { Room self.old (decimal n) }
        ensures { Printed self.old self.new (decimal n) }
    {
        let width = decimal_width(n);
        let mut rest = n;
        for i in (0..width).rev() {
            // By `as`: a digit, and try_from would bring a refusal that cannot come.
            self.bytes[self.at + i] = b'0' + (rest % 10) as u8;
            rest /= 10;
        }
        self.at += width;
    }

    // Prints a line of a letter and numbers.
    pub fn put_line(&mut self, letter: u8, numbers: &[usize])
        requires { Room self.old (line_text letter numbers.now) }
        ensures { Printed self.old self.new (line_text letter numbers.now) }
    {
        self.put(letter);
        for n in numbers {
            self.put(b' ');
            self.put_number(*n);
        }
        self.put(b'\n');
    }
}
