// Reads journal lines from standard input and prints what they tell in plain words, one line to an entry.
#![tactic(auto)]

use journal::explain;
use std::io;
use std::io::Read;

fn main(rt: HostRuntime) -> io::Result<()> {
    let mut text = Vec::new(rt.alloc());
    let _ = rt.stdin().read_to_end(&mut text)?;
    let told = explain::explain(rt.alloc(), &text)?;
    print!(rt; "{told}")
}
