// Records that no accepted sheet gives, each made from an accepted one by damage in one field.
use crate::shown::{end_line, print_answer, print_bool, print_number, untouched};
use sheet::Sheet;
use std::io;
use std::io::Write;

// Whether the record is recorded, what the writer answers, and whether its buffer is untouched.
fn one_record<W: Write>(to: &mut W, s: Sheet) -> io::Result<()> {
    print_bool(to, record::is_recorded(s))?;
    let mut out = [b'#'; 80];
    let w = writer::write(s, &mut out);
    print_answer(to, w.answer)?;
    print_number(to, w.size)?;
    print_bool(to, untouched(&out, 0))?;
    end_line(to)
}

// A record, once it is damaged.
fn damaged<W: Write, F: FnOnce(&mut Sheet)>(to: &mut W, s: Sheet, damage: F) -> io::Result<()>
    requires { F.IsAlwaysCallable damage }
{
    let mut sheet = s;
    damage(&mut sheet);
    one_record(to, sheet)
}

fn counts<W: Write>(to: &mut W, s: Sheet) -> io::Result<()> {
    damaged(to, s, |sheet| sheet.catalogue_lines = 513)?;
    damaged(to, s, |sheet| sheet.catalogue_lines = 1)?;
    damaged(to, s, |sheet| sheet.option_count = 33)?;
    damaged(to, s, |sheet| sheet.option_count = 3)?;
    damaged(to, s, |sheet| sheet.ordering_count = 65)?;
    damaged(to, s, |sheet| sheet.ordering_count = 3)
}

fn catalogue<W: Write>(to: &mut W, s: Sheet) -> io::Result<()> {
    damaged(to, s, |sheet| sheet.letters[0] = 70)?;
    damaged(to, s, |sheet| sheet.letters[1] = 0)?;
    damaged(to, s, |sheet| sheet.befores[0] = 0)?;
    damaged(to, s, |sheet| sheet.afters[1] = 251)?;
    damaged(to, s, |sheet| sheet.afters[0] = 3)
}

fn options<W: Write>(to: &mut W, s: Sheet) -> io::Result<()> {
    damaged(to, s, |sheet| sheet.numbers[0] = 251)?;
    damaged(to, s, |sheet| sheet.numbers[1] = 1)?;
    damaged(to, s, |sheet| sheet.numbers[2] = 9)?;
    damaged(to, s, |sheet| sheet.weights[3] = 10000)
}

fn orderings<W: Write>(to: &mut W, s: Sheet) -> io::Result<()> {
    damaged(to, s, |sheet| sheet.firsts[0] = 5)?;
    damaged(to, s, |sheet| sheet.seconds[1] = 2)?;
    damaged(to, s, |sheet| {
        sheet.firsts[1] = 1;
        sheet.seconds[1] = 3;
    })?;
    damaged(to, s, |sheet| sheet.ordering_weights[1] = 10000)
}

fn unused<W: Write>(to: &mut W, s: Sheet) -> io::Result<()> {
    damaged(to, s, |sheet| sheet.letters[2] = 67)?;
    damaged(to, s, |sheet| sheet.befores[511] = 1)?;
    damaged(to, s, |sheet| sheet.afters[2] = 1)?;
    damaged(to, s, |sheet| sheet.numbers[31] = 1)?;
    damaged(to, s, |sheet| sheet.weights[4] = 1)?;
    damaged(to, s, |sheet| sheet.firsts[63] = 1)?;
    damaged(to, s, |sheet| sheet.seconds[2] = 1)?;
    damaged(to, s, |sheet| sheet.ordering_weights[63] = 1)
}

pub fn each_damage<W: Write>(to: &mut W, s: Sheet) -> io::Result<()> {
    counts(to, s)?;
    catalogue(to, s)?;
    options(to, s)?;
    orderings(to, s)?;
    unused(to, s)?;
    one_record(to, Sheet::empty())
}
