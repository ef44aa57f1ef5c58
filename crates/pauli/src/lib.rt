// Pauli labels and rows, the sign rule and the Clifford gates; and the closed list of refusals of the whole instrument.
#![tactic(auto)]

pub mod bits;
pub mod case;
pub mod fault;
pub mod gate;
pub mod label;
pub mod letter;
pub mod placed;
pub mod qubits;
pub mod row;
#[cfg(test)]
mod tests;
