// A record from its bytes.
ghost use Rattle.std.specs.Prelude.{◌≡◌, ◌+◌, ◌*◌, ◌≤◌, length};
ghost use Rattle.fields.specs.Record.{two_at, bytes_at, twos_at, record_of, record_in};

use sheet::Sheet;

// How many bytes a record has.
const SIZE: usize = 1894;

// A number of two bytes, the lower one first.
fn two_at(bytes: &[u8], at: usize) -> u16
    requires { at + 2 ≤ length bytes.now }
    ensures { result ≡ two_at bytes.now at }
{
    u16::from_le_bytes([bytes[at], bytes[at + 1]])
}

// N bytes from byte `at` on.
fn bytes_at<const N: usize>(bytes: &[u8], at: usize) -> [u8; N]
    requires { at + N ≤ length bytes.now }
    ensures { result ≡ bytes_at N bytes.now at }
{
    let mut part = [0; N];
    part.copy_from_slice(&bytes[at..at + N]);
    part
}

// N numbers of two bytes each.
fn twos_at<const N: usize>(bytes: &[u8], at: usize) -> [u16; N]
    requires { at + 2 * N ≤ length bytes.now }
    ensures { result ≡ twos_at N bytes.now at }
{
    let mut numbers = [0; N];
    for i in 0..N {
        numbers[i] = two_at(bytes, at + 2 * i);
    }
    numbers
}

fn record_of(bytes: &[u8; SIZE]) -> Sheet
    ensures { result ≡ record_of bytes.now }
{
    Sheet {
        catalogue_lines: usize::from(two_at(bytes, 0)),
        option_count: usize::from(two_at(bytes, 2)),
        ordering_count: usize::from(two_at(bytes, 4)),
        weights: twos_at(bytes, 6),
        ordering_weights: twos_at(bytes, 70),
        letters: bytes_at(bytes, 198),
        befores: bytes_at(bytes, 710),
        afters: bytes_at(bytes, 1222),
        numbers: bytes_at(bytes, 1734),
        firsts: bytes_at(bytes, 1766),
        seconds: bytes_at(bytes, 1830),
    }
}

// The record that a caller hands over, or one that is refused if it has not the bytes of a record.
pub fn record_in(bytes: &[u8]) -> Sheet
    ensures { result ≡ record_in bytes.now }
{
    match bytes.as_array() {
        Some(bytes) => record_of(bytes),
        None => Sheet::sized(513, 0, 0),
    }
}
