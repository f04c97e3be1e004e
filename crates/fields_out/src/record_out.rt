// A record to its bytes.
ghost use Rattle.std.specs.Prelude.{◌≡◌, ◌+◌, ◌*◌, ◌≤◌, ◌<◌, length};
ghost use Rattle.print.specs.Put.{put};
ghost use Rattle.fields.specs.Record.{two_bytes, twos_of, bytes_in, head_of, tail_of, bytes_of};

use sheet::Sheet;

// A number of two bytes, the lower one first.
fn put_two(number: u16, out: &mut [u8], at: usize)
    requires { at + 2 ≤ length out.old }
    ensures { out.new ≡ put at (two_bytes number) out.old }
{
    out[at..at + 2].copy_from_slice(&number.to_le_bytes());
}

// N numbers of two bytes each.
fn put_twos<const N: usize>(from: &[u16; N], out: &mut [u8], at: usize)
    requires { at + 2 * N ≤ length out.old }
    ensures { out.new ≡ put at (twos_of N from.now) out.old }
{
    for (i, number) in from.iter().enumerate() {
        put_two(*number, out, at + 2 * i);
    }
}

// N single bytes.
fn put_bytes<const N: usize>(from: &[u8; N], out: &mut [u8], at: usize)
    requires { at + N ≤ length out.old }
    ensures { out.new ≡ put at (bytes_in N from.now) out.old }
{
    out[at..at + N].copy_from_slice(from);
}

// The counts and the weights.
fn put_head(sheet: &Sheet, out: &mut [u8])
    requires counts_bound { (sheet.now.catalogue_lines < 65536) × ((sheet.now.option_count < 65536) × (sheet.now.ordering_count < 65536)) }
    requires in_bounds { 1894 ≤ length out.old }
    ensures { out.new ≡ put 0 (head_of sheet.now) out.old }
{
    // By `as`: the counts are below 65,536, and try_from would bring a refusal that cannot come.
    put_two(sheet.catalogue_lines as u16, out, 0);
    put_two(sheet.option_count as u16, out, 2);
    put_two(sheet.ordering_count as u16, out, 4);
    put_twos(&sheet.weights, out, 6);
    put_twos(&sheet.ordering_weights, out, 70);
}

// The letters and the option numbers.
fn put_tail(sheet: &Sheet, out: &mut [u8])
    requires { 1894 ≤ length out.old }
    ensures { out.new ≡ put 198 (tail_of sheet.now) out.old }
{
    put_bytes(&sheet.letters, out, 198);
    put_bytes(&sheet.befores, out, 710);
    put_bytes(&sheet.afters, out, 1222);
    put_bytes(&sheet.numbers, out, 1734);
    put_bytes(&sheet.firsts, out, 1766);
    put_bytes(&sheet.seconds, out, 1830);
}

pub fn put_record(sheet: &Sheet, out: &mut [u8])
    requires counts_bound { (sheet.now.catalogue_lines < 65536) × ((sheet.now.option_count < 65536) × (sheet.now.ordering_count < 65536)) }
    requires in_bounds { 1894 ≤ length out.old }
    ensures { out.new ≡ put 0 (bytes_of sheet.now) out.old }
{
    put_head(sheet, out);
    put_tail(sheet, out);
}
