// The rules that the numbers of a well-shaped line obey, in the order 5, 8, 7, 9, 10.
ghost use Rattle.std.specs.Prelude.{◌≡◌};
ghost use Rattle.sheet.specs.Judge.{is_in, is_pair, no_option, judge_catalogue_line, judge_option, judge_ordering, judge_pair};

use shape::Numbers;
use sheet::{Judged, Refusal, Sheet};

// Where a line's first number begins: after the letter and a space.
const FIRST_COLUMN: usize = 3;

// Whether x is one of the entries.
fn is_in(entries: &[u8], x: u32) -> bool
    ensures { result ≡ is_in x entries.now }
{
    entries.iter().any(|y| u32::from(*y) == x)
}

// Whether x and y stand at one place of the two lists.
fn is_pair(firsts: &[u8], seconds: &[u8], x: u32, y: u32) -> bool
    ensures { result ≡ is_pair x y firsts.now seconds.now }
{
    firsts
        .iter()
        .zip(seconds)
        .any(|(a, b)| u32::from(*a) == x && u32::from(*b) == y)
}

// Whether a number is outside an option's range.
fn no_option(x: u32) -> bool
    ensures { result ≡ no_option x }
{
    x == 0 || Sheet::LARGEST_OPTION < x
}

// A C or X line.
pub fn judge_catalogue_line(h: Numbers) -> Judged
    ensures { result ≡ judge_catalogue_line h }
{
    if no_option(h.first) {
        Judged::Broken(Refusal::OutsideRange, FIRST_COLUMN)
    } else if no_option(h.second) {
        Judged::Broken(Refusal::OutsideRange, h.second_column)
    } else if h.first == h.second {
        Judged::Broken(Refusal::OneOptionTwice, h.second_column)
    } else {
        Judged::Fine
    }
}

// An F line, after the options that the F lines before it subscribe.
pub fn judge_option(h: Numbers, subscribed: &[u8]) -> Judged
    ensures { result ≡ judge_option h subscribed.now }
{
    if no_option(h.first) {
        Judged::Broken(Refusal::OutsideRange, FIRST_COLUMN)
    } else if Sheet::LARGEST_WEIGHT < h.second {
        Judged::Broken(Refusal::OutsideRange, h.second_column)
    } else if is_in(subscribed, h.first) {
        Judged::Broken(Refusal::SubscribedTwice, FIRST_COLUMN)
    } else {
        Judged::Fine
    }
}

// A U line, with all subscribed options, after the pairs of the U lines before it: in two lists, as a record has them.
pub fn judge_ordering(h: Numbers, subscribed: &[u8], firsts: &[u8], seconds: &[u8]) -> Judged
    ensures { result ≡ judge_ordering h subscribed.now firsts.now seconds.now }
{
    if no_option(h.first) {
        Judged::Broken(Refusal::OutsideRange, FIRST_COLUMN)
    } else if no_option(h.second) {
        Judged::Broken(Refusal::OutsideRange, h.second_column)
    } else if Sheet::LARGEST_WEIGHT < h.third {
        Judged::Broken(Refusal::OutsideRange, h.third_column)
    } else if h.first == h.second {
        Judged::Broken(Refusal::OneOptionTwice, h.second_column)
    } else {
        judge_pair(h, subscribed, firsts, seconds)
    }
}

// Rules 9 and 10 of a U line.
fn judge_pair(h: Numbers, subscribed: &[u8], firsts: &[u8], seconds: &[u8]) -> Judged
    ensures { result ≡ judge_pair h subscribed.now firsts.now seconds.now }
{
    if !is_in(subscribed, h.first) {
        Judged::Broken(Refusal::NotSubscribed, FIRST_COLUMN)
    } else if !is_in(subscribed, h.second) {
        Judged::Broken(Refusal::NotSubscribed, h.second_column)
    } else if is_pair(firsts, seconds, h.first, h.second) {
        Judged::Broken(Refusal::SamePairAgain, 1)
    } else {
        Judged::Fine
    }
}
