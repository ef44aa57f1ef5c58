// Reads a circuit from standard input and prints the lines of its journal, and last how it ended.
#![tactic(auto)]

use circuit_run::output;
use std::io;
use std::io::{Read, Write};
use text::limits::ENOUGH;

fn main(rt: HostRuntime) -> io::Result<()> {
    let mut text = Vec::new(rt.alloc());
    rt.stdin().take(ENOUGH).read_to_end(&mut text)?;
    let printed = output::answer(rt.alloc(), text.as_slice())?;
    rt.stdout().write_all(printed.as_slice())
}
