// A gate whose qubits were checked: it can be carried out on any row.
ghost use Rattle.std.specs.Prelude.{◌≡◌, true};
ghost use Rattle.pauli.specs.Faults.{Answers};
ghost use Rattle.pauli.specs.Gates.{placeable, placing_fault};

use crate::fault::Fault;
use crate::gate::Gate;
use crate::qubits::{is_size, on_board};

#[derive(Clone, Copy)]
pub struct PlacedGate {
    pub gate: Gate,
    ghost placed: { placeable gate ≡ true },
}

impl Gate {
    // Checks a gate's qubits against n qubits.
    pub fn placed(self, n: u32) -> Result<PlacedGate, Fault>
        ensures { Answers (placing_fault n self) (λ p. p.gate ≡ self) result }
    {
        if !is_size(n) {
            return Err(Fault::BadSize);
        }
        match self {
            Gate::One { gate: _, qubit } => {
                if !on_board(n, qubit) {
                    return Err(Fault::BadQubit);
                }
            }
            Gate::Cx { control, target } => {
                if !on_board(n, control) || !on_board(n, target) {
                    return Err(Fault::BadQubit);
                }
                if control == target {
                    return Err(Fault::SameQubit);
                }
            }
        }
        Ok(PlacedGate { gate: self })
    }
}
