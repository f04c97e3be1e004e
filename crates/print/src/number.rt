// How long a number is in decimal.
ghost use Rattle.std.specs.Prelude.{◌≡◌, ◌≤◌, length};
ghost use Rattle.shape.specs.LineText.{decimal};

// How many digits a number has. A `while`, since it counts no index: it divides until one digit is left.
pub fn decimal_width(n: usize) -> usize
    ensures { (result ≡ length (decimal n)) × (result ≤ 20) }
{
    let mut width: usize = 1;
    let mut rest = n;
    while 10 <= rest {
        rest /= 10;
        width += 1;
    }
    width
}
