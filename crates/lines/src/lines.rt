// The well-shaped lines, one by one, into the record.
ghost use Rattle.std.specs.Prelude.{◌≡◌, ◌≤◌, ◌<◌, ◌-◌};
ghost use Rattle.sheet.specs.declared.judged.Judged.TheVariants.{Fine};
ghost use Rattle.shape.specs.Scan.{section_of};
ghost use Rattle.lines.specs.Lines.{judged_line, read_lines, WithinLimits};
ghost use Rattle.lines.specs.Stored.{catalogue_letter, with_catalogue_line, with_option, with_ordering, stored_line};

use crate::result::{Reading, answered, refused_at};
use judge::{judge_catalogue_line, judge_option, judge_ordering};
use pieces::{byte_at, line_length, numbers_of};
use shape::{Numbers, Section, section_of};
use sheet::{Answer, Judged, Sheet};

// The numbers of a line that breaks no rule fit their entries: no TryFrom, which would bring an error that cannot come.

// Puts a C or X line, which is entry i and begins with `letter`, into the record.
fn put_catalogue_line(s: &mut Sheet, i: usize, letter: u8, h: Numbers)
    requires i_bound { i < 512 }
    requires numbers_bound { (h.first ≤ 250) × (h.second ≤ 250) }
    ensures { s.new ≡ with_catalogue_line s.old i (catalogue_letter letter) h.first h.second }
{
    s.letters[i] = if letter == b'X' { b'X' } else { b'C' };
    s.befores[i] = h.first as u8;
    s.afters[i] = h.second as u8;
}

// Puts an F line, which is entry i, into the record.
fn put_option(s: &mut Sheet, i: usize, h: Numbers)
    requires i_bound { i < 32 }
    requires numbers_bound { (h.first ≤ 250) × (h.second ≤ 9999) }
    ensures { s.new ≡ with_option s.old i h.first h.second }
{
    s.numbers[i] = h.first as u8;
    s.weights[i] = h.second as u16;
}

// Puts a U line, which is entry i, into the record.
fn put_ordering(s: &mut Sheet, i: usize, h: Numbers)
    requires i_bound { i < 64 }
    requires numbers_bound { (h.first ≤ 250) × ((h.second ≤ 250) × (h.third ≤ 9999)) }
    ensures { s.new ≡ with_ordering s.old i h.first h.second h.third }
{
    s.firsts[i] = h.first as u8;
    s.seconds[i] = h.second as u8;
    s.ordering_weights[i] = h.third as u16;
}

// A line that has a place in its section, where the F lines begin at line f and the U lines at line u.
#[derive(Clone, Copy)]
struct Line {
    f: usize,
    u: usize,
    number: usize,
    section: Section,
    ghost within_limits: { WithinLimits f u number },
    ghost section_value: { section ≡ section_of f u number },
}

impl Line {
    // What the rules say of it, after the lines before it.
    fn judged(self, h: Numbers, s: &Sheet) -> Judged
        ensures { result ≡ judged_line self.f self.u self.section self.number h s.now }
    {
        match self.section {
            Section::Catalogue => judge_catalogue_line(h),
            Section::Options => judge_option(h, &s.numbers[..self.number - self.f]),
            Section::Orderings => {
                let subscribed = &s.numbers[..self.u - self.f];
                let before = self.number - self.u;
                judge_ordering(h, subscribed, &s.firsts[..before], &s.seconds[..before])
            }
            Section::Trailer => Judged::Fine,
        }
    }

    // Puts it into the record; it breaks no rule.
    fn put(self, letter: u8, h: Numbers, s: &mut Sheet)
        requires from_1 { 1 ≤ self.number }
        requires is_fine { judged_line self.f self.u self.section self.number h s.old ≡ Fine }
        ensures { s.new ≡ stored_line self.f self.u self.section self.number letter h s.old }
    {
        match self.section {
            Section::Catalogue => put_catalogue_line(s, self.number - 1, letter, h),
            Section::Options => put_option(s, self.number - self.f, h),
            Section::Orderings => put_ordering(s, self.number - self.u, h),
            Section::Trailer => {}
        }
    }
}

// The lines from the first up to line `stop`, and then the answer a.
pub fn read_lines(s: &[u8], f: usize, u: usize, stop: usize, a: Answer, start: Sheet) -> Reading
    requires within_limits { WithinLimits f u (stop - 1) }
    requires stop_from_1 { 1 ≤ stop }
    ensures { result ≡ read_lines f u a (stop - 1) 1 s.now start }
{
    let mut sheet = start;
    let mut rest = s;
    for number in 1..stop {
        let line = Line {
            f,
            u,
            number,
            section: section_of(f, u, number),
        };
        let h = numbers_of(rest);
        match line.judged(h, &sheet) {
            Judged::Broken(why, column) => {
                return refused_at(why, number, column);
            }
            Judged::Fine => {
                line.put(byte_at(rest, 0), h, &mut sheet);
                rest = &rest[line_length(rest)..];
            }
        }
    }
    answered(a, sheet)
}
