// How many bytes the sections of a text have, each a loop as it is printed, and the whole. No line has more than 65: its letter, its end, and a space and 20 digits three times.
ghost use Rattle.std.specs.Prelude.{[], ◌≡◌, ◌≤◌, ◌*◌, length};
ghost use Rattle.sheet.specs.Text.{catalogue_text, options_text, orderings_text, text_of};

use print::decimal_width;
use sheet::Sheet;

// How many bytes the catalogue lines have; their letters do not matter.
fn catalogue_size(s: &Sheet) -> usize
    requires n_bound { s.now.catalogue_lines ≤ 512 }
    ensures { (result ≡ length (catalogue_text s.now.catalogue_lines 0 [] s.now.befores s.now.afters)) × (result ≤ 65 * s.now.catalogue_lines) }
{
    let mut size: usize = 0;
    for i in 0..s.catalogue_lines {
        let before = decimal_width(usize::from(s.befores[i]));
        let after = decimal_width(usize::from(s.afters[i]));
        size += 4 + before + after;
    }
    size
}

// How many bytes the F lines have.
fn options_size(s: &Sheet) -> usize
    requires n_bound { s.now.option_count ≤ 32 }
    ensures { (result ≡ length (options_text s.now.option_count 0 s.now.numbers s.now.weights)) × (result ≤ 65 * s.now.option_count) }
{
    let mut size: usize = 0;
    for i in 0..s.option_count {
        let number = decimal_width(usize::from(s.numbers[i]));
        let weight = decimal_width(usize::from(s.weights[i]));
        size += 4 + number + weight;
    }
    size
}

// How many bytes the U lines have.
fn orderings_size(s: &Sheet) -> usize
    requires n_bound { s.now.ordering_count ≤ 64 }
    ensures { (result ≡ length (orderings_text s.now.ordering_count 0 s.now.firsts s.now.seconds s.now.ordering_weights)) × (result ≤ 65 * s.now.ordering_count) }
{
    let mut size: usize = 0;
    for i in 0..s.ordering_count {
        let first = decimal_width(usize::from(s.firsts[i]));
        let second = decimal_width(usize::from(s.seconds[i]));
        let weight = decimal_width(usize::from(s.ordering_weights[i]));
        size += 5 + first + second + weight;
    }
    size
}

// How many bytes the text of a record has.
pub fn text_size(s: &Sheet) -> usize
    requires { (s.now.catalogue_lines ≤ 512) × ((s.now.option_count ≤ 32) × (s.now.ordering_count ≤ 64)) }
    ensures { result ≡ length (text_of s.now) }
{
    let sections = catalogue_size(s) + options_size(s) + orderings_size(s);
    let options_line = s.catalogue_lines + 1;
    let orderings_line = options_line + s.option_count;
    let trailer_line = orderings_line + s.ordering_count;
    sections
        + 5
        + decimal_width(options_line)
        + decimal_width(orderings_line)
        + decimal_width(trailer_line)
}
