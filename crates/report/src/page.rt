// The whole report, printed on a page.
ghost use Rattle.std.specs.Prelude.{◌≤◌, length};
ghost use Rattle.rules.specs.Results.{answer_at_nought};
ghost use Rattle.sheet.specs.Recorded.{Recorded};
ghost use Rattle.sheet.specs.Lines.{lines_of};
ghost use Rattle.print.specs.Page.{Room, Printed};
ghost use Rattle.listing.specs.Appended.{Appended};
ghost use Rattle.report.specs.Report.{answer_text, refusal_text, report_of};

use listing::{put_options, put_orderings, put_places};
use print::Page;
use shape::Place;
use sheet::{Answer, Refusal, Sheet};

// Prints the line of a refused sheet.
pub fn put_refusal(page: &mut Page, place: Place, why: Refusal)
    requires { Room page.old (refusal_text place why) }
    ensures { Printed page.old page.new (refusal_text place why) }
{
    let number = sheet::number_of(why);
    page.put_line(b'E', &[number, place.line, place.column]);
}

// Prints the best relaxation of a record that an accepted sheet gives.
pub fn put_best(page: &mut Page, s: Sheet)
    requires recorded { Recorded s }
    requires room { Room page.old (answer_text (lines_of s) (answer_at_nought (lines_of s))) }
    ensures { Printed page.old page.new (answer_text (lines_of s) (answer_at_nought (lines_of s))) }
{
    let found = search::search(s, 0);
    let decisions = found.decisions;
    let sequenced = sequence::sequence(s, decisions);
    // `as`, since no `From` takes a u32 to a usize.
    page.put_line(b'V', &[found.value as usize, found.ceiling as usize]);
    put_places(page, &sequenced.places);
    put_options(page, &decisions.options, &s.numbers, s.option_count);
    put_orderings(
        page,
        &decisions.orderings,
        &s.firsts,
        &s.seconds,
        s.ordering_count,
    );
}

// Prints the report of a sheet at the start of a buffer, and gives its size.
pub fn put_report(text: &[u8], page: &mut [u8]) -> usize
    requires { length (report_of text.now) ≤ length page.old }
    ensures { Appended page.old page.new 0 result (report_of text.now) }
{
    let mut printed = Page::new(page);
    let reading = reader::read(text);
    match reading.answer {
        Answer::Accepted => put_best(&mut printed, reading.sheet),
        Answer::Refused { place, why } => put_refusal(&mut printed, place, why),
    }
    printed.len()
}
