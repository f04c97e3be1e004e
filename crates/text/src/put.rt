// The sections of a text, printed one after the other on a page, and the whole. Each section is a loop of its own: its lines have
// two numbers or three, of one byte or of two, so a common loop would take a closure for what is now one call.
ghost use Rattle.std.specs.Prelude.{◌≡◌, ◌≤◌, length};
ghost use Rattle.sheet.specs.Text.{catalogue_text, options_text, orderings_text, text_of};
ghost use Rattle.print.specs.Put.{put};
ghost use Rattle.print.specs.Page.{Room, Printed};

use print::Page;
use sheet::Sheet;

// Prints the catalogue lines.
fn put_catalogue(page: &mut Page, s: &Sheet)
    requires enough_entries { s.now.catalogue_lines ≤ 512 }
    requires room { Room page.old (catalogue_text s.now.catalogue_lines 0 s.now.letters s.now.befores s.now.afters) }
    ensures { Printed page.old page.new (catalogue_text s.now.catalogue_lines 0 s.now.letters s.now.befores s.now.afters) }
{
    for i in 0..s.catalogue_lines {
        let before = usize::from(s.befores[i]);
        let after = usize::from(s.afters[i]);
        page.put_line(s.letters[i], &[before, after]);
    }
}

// Prints the F lines.
fn put_options(page: &mut Page, s: &Sheet)
    requires enough_entries { s.now.option_count ≤ 32 }
    requires room { Room page.old (options_text s.now.option_count 0 s.now.numbers s.now.weights) }
    ensures { Printed page.old page.new (options_text s.now.option_count 0 s.now.numbers s.now.weights) }
{
    for i in 0..s.option_count {
        let number = usize::from(s.numbers[i]);
        let weight = usize::from(s.weights[i]);
        page.put_line(b'F', &[number, weight]);
    }
}

// Prints the U lines.
fn put_orderings(page: &mut Page, s: &Sheet)
    requires enough_entries { s.now.ordering_count ≤ 64 }
    requires room { Room page.old (orderings_text s.now.ordering_count 0 s.now.firsts s.now.seconds s.now.ordering_weights) }
    ensures { Printed page.old page.new (orderings_text s.now.ordering_count 0 s.now.firsts s.now.seconds s.now.ordering_weights) }
{
    for i in 0..s.ordering_count {
        let first = usize::from(s.firsts[i]);
        let second = usize::from(s.seconds[i]);
        let weight = usize::from(s.ordering_weights[i]);
        page.put_line(b'U', &[first, second, weight]);
    }
}

// Prints the text of a record at the start of a buffer, and gives its size.
pub fn put_text(s: &Sheet, out: &mut [u8]) -> usize
    requires counts_bound { (s.now.catalogue_lines ≤ 512) × ((s.now.option_count ≤ 32) × (s.now.ordering_count ≤ 64)) }
    requires room { length (text_of s.now) ≤ length out.old }
    ensures { (out.new ≡ put 0 (text_of s.now) out.old) × (result ≡ length (text_of s.now)) }
{
    let mut page = Page::new(out);
    put_catalogue(&mut page, s);
    put_options(&mut page, s);
    put_orderings(&mut page, s);
    let options_line = s.catalogue_lines + 1;
    let orderings_line = options_line + s.option_count;
    let trailer_line = orderings_line + s.ordering_count;
    page.put_line(b'T', &[options_line, orderings_line, trailer_line]);
    page.len()
}
