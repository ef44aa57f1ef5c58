// Runs every circuit of the examples and compares what is printed with what is expected.
#![tactic(auto)]

use circuit_run::output;
use std::io::Write;
use std::{fs, io};

// The circuit of each name stands in NAME.txt, and what is expected of it in NAME.journal.
const EXAMPLES: [&str; 23] = [
    "a-coin-each-time",
    "bell-pair",
    "five-qubit-code",
    "four-measurements",
    "ghz-state",
    "measured-reset",
    "narrowing",
    "refused-coins",
    "refused-empty",
    "refused-form",
    "refused-journal-full",
    "refused-label",
    "refused-no-coins",
    "refused-outcome",
    "refused-qubit",
    "refused-same-qubit",
    "refused-size",
    "refused-width",
    "repetition-code",
    "sixty-four-qubits",
    "steering",
    "swap",
    "teleportation",
];

// Whether a circuit comes to what is expected. Where it does not, what it came to is printed.
fn compare(rt: &HostRuntime, name: &str) -> anyhow::Result<bool> {
    let circuit = format!(in rt.alloc(); "{name}.txt")?;
    let journal = format!(in rt.alloc(); "{name}.journal")?;
    let text = fs::read(rt, circuit.as_str())?;
    let expected = fs::read(rt, journal.as_str())?;
    let printed = output::answer(rt.alloc(), text.as_slice())?;
    if printed.as_slice() == expected.as_slice() {
        println!(rt; "{name}: as expected")?;
        return Ok(true);
    }
    println!(rt; "{name}: came to something else:")?;
    rt.stdout().write_all(printed.as_slice())?;
    Ok(false)
}

fn main(rt: HostRuntime) -> anyhow::Result<()> {
    let mut good = 0u32;
    for name in &EXAMPLES {
        if compare(&rt, *name)? {
            good = good.saturating_add(1);
        }
    }
    let count = EXAMPLES.len();
    println!(rt; "{good} of {count} circuits came to what is expected")?;
    Ok(())
}
