// The lines of a circuit.
use pauli::gate::{Gate, OneQubit};

// The first line: how many qubits there are, and the width of the point that is opened.
#[derive(Clone, Copy)]
pub struct Opening {
    pub size: u32,
    pub width: u32,
}

// A line after the first two. The letters of a measured label are the part of the text that they stand in.
#[derive(Clone, Copy)]
pub enum Line<'a> {
    Gate(Gate),
    Measure {
        // True for minus, as in a row.
        sign: bool,
        letters: &'a [u8],
    },
    Conditional {
        outcome: u32,
        gate: OneQubit,
        qubit: u32,
    },
}
