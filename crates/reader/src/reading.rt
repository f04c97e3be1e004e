// Reading a sheet: 1, 2, 3, then 6, then the lines from line 1.
ghost use Rattle.std.specs.Prelude.{◌≡◌, ◌≤◌, ◌-◌, suc, length, take};
ghost use Rattle.shape.specs.Scan.{first_misshapen};
ghost use Rattle.shape.specs.Trailer.{line_ends};
ghost use Rattle.sheet.specs.Sheet.{sized};
ghost use Rattle.lines.specs.Lines.{WithinLimits};
ghost use Rattle.reader.specs.Read.{read_body, bad_trailer, read_trailed, read_sheet};

use lines::{Reading, read_lines, refused_at};
use pieces::{is_trailer, last_line, numbers_of};
use shape::{LastLine, Numbers, Scanned, first_misshapen};
use sheet::{Answer, Refusal, Sheet};

// Whether the trailer on line n breaks 1 ≤ f ≤ u ≤ t, or t is not n.
fn bad_trailer(f: usize, u: usize, t: usize, n: usize) -> bool
    ensures { result ≡ bad_trailer f u t n }
{
    f < 1 || u < f || t < u || t != n
}

// The lines before the trailer, which is line t and begins at `at`.
#[tactic(auto, unfolding(crate::specs::Read::read_body))]
fn read_body(s: &[u8], at: usize, f: usize, u: usize, t: usize) -> Reading
    requires within_limits { WithinLimits f u (t - 1) }
    requires sections_fit { (1 ≤ f) × (u ≤ t) }
    requires at_in_bounds { (at ≤ length s.now) × (t ≡ suc (line_ends (take at s.now))) }
    ensures { result ≡ read_body f u s.now (sized (f - 1) (u - f) (t - u)) t (first_misshapen f u (take at s.now)) }
{
    let start = Sheet::sized(f - 1, u - f, t - u);
    match first_misshapen(&s[..at], f, u) {
        Scanned::Clean => read_lines(s, f, u, t, Answer::Accepted, start),
        Scanned::At(place, _) => {
            let why = Refusal::Misshapen;
            read_lines(s, f, u, place.line, Answer::Refused { place, why }, start)
        }
    }
}

// A sheet whose last line is a well-shaped trailer with these numbers.
#[tactic(auto, unfolding(crate::specs::Read::read_trailed))]
fn read_trailed(s: &[u8], last: LastLine, numbers: Numbers) -> Reading
    requires at_in_bounds { (last.start ≤ length s.now) × (last.lines ≡ suc (line_ends (take last.start s.now))) }
    ensures { result ≡ read_trailed s.now last.start last.lines numbers.first numbers.second numbers.third }
{
    // By `as`: usize has no From<u32>.
    let f = numbers.first as usize;
    let u = numbers.second as usize;
    let t = numbers.third as usize;
    if bad_trailer(f, u, t, last.lines) {
        return refused_at(Refusal::BadTrailer, last.lines, 1);
    }
    if Sheet::CATALOGUE < f - 1 {
        return refused_at(Refusal::TooManyLines, 1 + Sheet::CATALOGUE, 1);
    }
    if Sheet::OPTIONS < u - f {
        return refused_at(Refusal::TooManyLines, f + Sheet::OPTIONS, 1);
    }
    if Sheet::ORDERINGS < t - u {
        return refused_at(Refusal::TooManyLines, u + Sheet::ORDERINGS, 1);
    }
    read_body(s, last.start, f, u, t)
}

// Reads a sheet: its record, or the first refusal with an all-zero record.
#[tactic(auto, using(lines::proofs::LineLaws::to_end), unfolding(crate::specs::Read::read_sheet))]
pub fn read(text: &[u8]) -> Reading
    ensures { result ≡ read_sheet text.now }
{
    if Sheet::MAX_BYTES < text.len() {
        return refused_at(Refusal::SheetTooLong, 0, 0);
    }
    let last = last_line(text);
    let line = &text[last.start..];
    if is_trailer(line) {
        return read_trailed(text, last, numbers_of(line));
    }
    refused_at(Refusal::NoTrailer, 0, 0)
}
