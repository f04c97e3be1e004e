// The numbers of a line.
ghost use Rattle.std.specs.Prelude.{◌≡◌, ◌+◌, drop};
ghost use Rattle.shape.specs.Number.{number_value, number_width, numbers_of};

use shape::Numbers;

// A number that was read, and the position after it.
#[derive(Clone, Copy)]
pub struct Parsed {
    pub value: u32,
    pub next: usize,
}

// The digits from `at` on, at most five.
pub fn number_at(s: &[u8], at: usize) -> Parsed
    ensures { (result.value ≡ number_value 5 0 (drop at s.now)) × (result.next ≡ at + number_width 5 (drop at s.now)) }
{
    let mut value: u32 = 0;
    let mut next = at;
    for _ in 0..5usize {
        let Some(b) = s.get(next) else {
            break;
        };
        if !b.is_ascii_digit() {
            break;
        }
        value = value * 10 + u32::from(*b - b'0');
        next += 1;
    }
    Parsed { value, next }
}

// The numbers of the line that a text begins with: up to three, one byte apart, after the letter and a space.
pub fn numbers_of(line: &[u8]) -> Numbers
    ensures { result ≡ numbers_of line.now }
{
    let first = number_at(line, 2);
    let second = number_at(line, first.next + 1);
    let third = number_at(line, second.next + 1);
    Numbers {
        first: first.value,
        second: second.value,
        third: third.value,
        second_column: first.next + 2,
        third_column: second.next + 2,
    }
}
