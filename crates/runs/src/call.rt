// What can be asked of a session.
use pauli::gate::{Gate, OneQubit};
use pauli::label::Label;

#[derive(Clone, Copy, PartialEq, Eq, Debug)]
pub enum Call {
    Gate(Gate),
    // A one-qubit gate, done if an earlier outcome is 1. Outcomes count from 1.
    Conditional {
        outcome: u32,
        gate: OneQubit,
        qubit: u32,
    },
    Measure {
        label: Label,
        // True for minus, as in a row.
        sign: bool,
    },
    Size,
    Width,
    Value(Label),
    // The line of an entry, read into a buffer of `room` bytes (of the answer's 144 at most). Entries count from 1.
    Read {
        entry: u32,
        room: usize,
    },
}
