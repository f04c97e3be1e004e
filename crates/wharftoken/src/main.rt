// One sheet from standard input, its report to standard output.
#![tactic(auto)]

mod answering;

use std::io;

fn main(rt: HostRuntime) -> io::Result<()> {
    answering::answer(&mut rt.stdin(), &mut rt.stdout())
}
