// Whether a record is one that an accepted sheet gives: the record's rule, checked on the arrays as they stand.
ghost use Rattle.std.specs.Prelude.{◌≡◌, ◌≤◌, take, drop};
ghost use Rattle.std.specs.List.{list_all};
ghost use Rattle.sheet.specs.IsRecorded.{is_fine, is_letter, entry_numbers, catalogue_fine, options_fine, orderings_fine, within_limits, catalogue_recorded, options_recorded, orderings_recorded, is_recorded};

use judge::{judge_catalogue_line, judge_option, judge_ordering};
use shape::Numbers;
use sheet::{Judged, Sheet};

// No rule is broken.
fn is_fine(verdict: Judged) -> bool
    ensures { result ≡ is_fine verdict }
{
    matches!(verdict, Judged::Fine)
}

// C or X.
fn is_letter(b: u8) -> bool
    ensures { result ≡ is_letter b }
{
    b == b'C' || b == b'X'
}

// The numbers of an entry, as those of a line; columns do not matter here.
fn entry_numbers(first: u32, second: u32, third: u32) -> Numbers
    ensures { result ≡ entry_numbers first second third }
{
    Numbers {
        first,
        second,
        third,
        second_column: 0,
        third_column: 0,
    }
}

// Whether all entries from `at` on are this one.
fn rest_is<T: Copy + PartialEq>(entries: &[T], at: usize, entry: T) -> bool
    ensures { result ≡ list_all (λ x. T.eq x entry) (drop at entries.now) }
{
    entries.iter().skip(at).all(|x| *x == entry)
}

// Whether the catalogue's entries could be lines.
fn catalogue_fine(s: &Sheet) -> bool
    requires { s.now.catalogue_lines ≤ 512 }
    ensures { result ≡ catalogue_fine s.now.catalogue_lines 0 s.now.letters s.now.befores s.now.afters }
{
    (0..s.catalogue_lines).all(|i| {
        let before = u32::from(s.befores[i]);
        let after = u32::from(s.afters[i]);
        is_letter(s.letters[i]) && is_fine(judge_catalogue_line(entry_numbers(before, after, 0)))
    })
}

// Whether the options could be F lines.
fn options_fine(s: &Sheet) -> bool
    requires { s.now.option_count ≤ 32 }
    ensures { result ≡ options_fine s.now.option_count 0 s.now.numbers s.now.weights }
{
    (0..s.option_count).all(|i| {
        let numbers = entry_numbers(u32::from(s.numbers[i]), u32::from(s.weights[i]), 0);
        is_fine(judge_option(numbers, &s.numbers[..i]))
    })
}

// Whether the orderings could be U lines.
fn orderings_fine(s: &Sheet) -> bool
    requires { (s.now.option_count ≤ 32) × (s.now.ordering_count ≤ 64) }
    ensures { result ≡ orderings_fine s.now.ordering_count 0 (take s.now.option_count s.now.numbers) s.now.firsts s.now.seconds s.now.ordering_weights }
{
    let subscribed = &s.numbers[..s.option_count];
    (0..s.ordering_count).all(|i| {
        let first = u32::from(s.firsts[i]);
        let second = u32::from(s.seconds[i]);
        let numbers = entry_numbers(first, second, u32::from(s.ordering_weights[i]));
        is_fine(judge_ordering(numbers, subscribed, &s.firsts[..i], &s.seconds[..i]))
    })
}

// No section has too many lines.
fn within_limits(s: &Sheet) -> bool
    ensures { result ≡ within_limits s.now.catalogue_lines s.now.option_count s.now.ordering_count }
{
    s.catalogue_lines <= Sheet::CATALOGUE
        && s.option_count <= Sheet::OPTIONS
        && s.ordering_count <= Sheet::ORDERINGS
}

// The catalogue's part of the rule: its lines, then zeros.
fn catalogue_recorded(s: &Sheet) -> bool
    requires { s.now.catalogue_lines ≤ 512 }
    ensures { result ≡ catalogue_recorded s.now.catalogue_lines s.now.letters s.now.befores s.now.afters }
{
    let n = s.catalogue_lines;
    catalogue_fine(s)
        && rest_is(&s.letters, n, 0)
        && rest_is(&s.befores, n, 0)
        && rest_is(&s.afters, n, 0)
}

// The options' part.
fn options_recorded(s: &Sheet) -> bool
    requires { s.now.option_count ≤ 32 }
    ensures { result ≡ options_recorded s.now.option_count s.now.numbers s.now.weights }
{
    let n = s.option_count;
    options_fine(s) && rest_is(&s.numbers, n, 0) && rest_is(&s.weights, n, 0)
}

// The orderings' part.
fn orderings_recorded(s: &Sheet) -> bool
    requires { (s.now.option_count ≤ 32) × (s.now.ordering_count ≤ 64) }
    ensures { result ≡ orderings_recorded s.now.ordering_count (take s.now.option_count s.now.numbers) s.now.firsts s.now.seconds s.now.ordering_weights }
{
    let n = s.ordering_count;
    orderings_fine(s)
        && rest_is(&s.firsts, n, 0)
        && rest_is(&s.seconds, n, 0)
        && rest_is(&s.ordering_weights, n, 0)
}

// Whether some accepted sheet gives the record.
#[tactic(auto, unfolding(sheet::specs::IsRecorded::is_recorded))]
pub fn is_recorded(s: Sheet) -> bool
    ensures { result ≡ is_recorded s }
{
    within_limits(&s) && catalogue_recorded(&s) && options_recorded(&s) && orderings_recorded(&s)
}
