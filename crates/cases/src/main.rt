// Reads texts around every rule of the order sheet from standard input, each ended by a byte 255, and prints the answer for each.
// What is accepted is written back. Then come buffers of every length, and records damaged in each field.
#![tactic(auto)]

mod damaged;
mod lengths;
mod shown;
mod texts;

use std::io;

fn main(rt: HostRuntime) -> io::Result<()> {
    let mut all = [0u8; 65536];
    let n = input::fill(&mut rt.stdin(), &mut all)?;
    let mut out = rt.stdout();
    texts::each_text(&mut out, &all[..n])?;
    let r = reader::read(&lengths::TEXT);
    lengths::each_length(&mut out, r.sheet)?;
    damaged::each_damage(&mut out, r.sheet)
}
