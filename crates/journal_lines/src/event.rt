// What an entry of the journal tells.
use pauli::case::Case;
use pauli::gate::{Gate, OneQubit};
use pauli::label::Label;

#[derive(Clone, Copy, PartialEq, Eq, Debug)]
pub struct Measurement {
    // True for minus. Signs and outcomes are bits that are added.
    pub sign: bool,
    // How many letters the label has.
    pub size: u32,
    pub label: Label,
    pub case: Case,
    pub outcome: bool,
    // How many coins were drawn, and these: the first coin in the lowest bit.
    pub count: u32,
    pub coins: u64,
}

#[derive(Clone, Copy, PartialEq, Eq, Debug)]
pub enum Event {
    Gate(Gate),
    // A one-qubit gate that asked for an outcome by its number. `done` is that outcome: the gate was done if it was 1, else passed over.
    Conditional {
        done: bool,
        outcome: u32,
        gate: OneQubit,
        qubit: u32,
    },
    Measurement(Measurement),
}
