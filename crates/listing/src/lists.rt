// The lines of places, dropped options and dropped orderings.
ghost use Rattle.std.specs.Prelude.{◌≤◌, length};
ghost use Rattle.shape.specs.LineText.{line_text};
ghost use Rattle.print.specs.Page.{Room, Printed};
ghost use Rattle.listing.specs.Listing.{each, unless, place_line, option_line, ordering_line};

use given::is_dropped;
use print::Page;
use sheet::{Decision, Number};

// Prints a line of a letter and numbers, or nothing.
fn put_unless(page: &mut Page, skip: bool, letter: u8, numbers: &[usize])
    requires { Room page.old (unless skip (line_text letter numbers.now)) }
    ensures { Printed page.old page.new (unless skip (line_text letter numbers.now)) }
{
    if !skip {
        page.put_line(letter, numbers);
    }
}

// Prints the places of a sequence, counted from 1; one that holds 0 is past the last.
pub fn put_places(page: &mut Page, places: &[Number; 32])
    requires { Room page.old (each 32 (place_line places.now)) }
    ensures { Printed page.old page.new (each 32 (place_line places.now)) }
{
    for (i, option) in places.iter().enumerate() {
        let number = usize::from(option.0);
        put_unless(page, option.0 == 0, b'S', &[i + 1, number]);
    }
}

// Prints those of the first n options that are dropped.
pub fn put_options(page: &mut Page, options: &[Decision; 32], numbers: &[u8], n: usize)
    requires n_bound { (n ≤ 32) × (n ≤ length numbers.now) }
    requires room { Room page.old (each n (option_line options.now numbers.now)) }
    ensures { Printed page.old page.new (each n (option_line options.now numbers.now)) }
{
    for i in 0..n {
        let number = usize::from(numbers[i]);
        put_unless(page, !is_dropped(options[i]), b'D', &[number]);
    }
}

// Prints those of the first m orderings that are dropped. Apart from the options, whose lines have one number and not two: a common
// loop would take a closure for what is now one call.
pub fn put_orderings(
    page: &mut Page,
    orderings: &[Decision; 64],
    firsts: &[u8],
    seconds: &[u8],
    m: usize,
)
    requires m_bound { (m ≤ 64) × ((m ≤ length firsts.now) × (m ≤ length seconds.now)) }
    requires room { Room page.old (each m (ordering_line orderings.now firsts.now seconds.now)) }
    ensures { Printed page.old page.new (each m (ordering_line orderings.now firsts.now seconds.now)) }
{
    for u in 0..m {
        let first = usize::from(firsts[u]);
        let second = usize::from(seconds[u]);
        put_unless(page, !is_dropped(orderings[u]), b'R', &[first, second]);
    }
}
