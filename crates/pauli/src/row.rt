// Rows: signed labels, their product, and what a gate makes of them.
ghost use Rattle.std.specs.Prelude.{◌≡◌, ◌-◌, ◌≤◌, true, is_err, if◌then◌else◌, Some, None};
ghost use Rattle.pauli.specs.Bits.{odd, xorb};
ghost use Rattle.pauli.specs.Faults.{Answers};
ghost use Rattle.pauli.specs.Labels.{pairing};
ghost use Rattle.pauli.specs.Rows.{row, times};
ghost use Rattle.pauli.specs.Gates.{turned, turn_flips, crossed, cross_flips, carry, placing_fault};

use crate::bits::{bit_within, with_bit};
use crate::fault::Fault;
use crate::gate::{Gate, OneQubit};
use crate::label::Label;
use crate::placed::PlacedGate;

// A label with a sign: `sign` is true for minus. It is a bit and no enum, since signs are added.
#[derive(Clone, Copy, PartialEq, Eq, Debug)]
pub struct Row {
    pub label: Label,
    pub sign: bool,
}

impl Row {
    // The product of two rows that commute. (Of rows that do not, only the label means anything.)
    pub fn times(self, other: Row) -> Row
        ensures { result ≡ times self other }
    {
        Row {
            label: self.label.product(other.label),
            sign: self.sign ^ other.sign ^ self.label.half_phase(other.label),
        }
    }

    // The product of two rows, which only commuting ones have.
    pub fn product(self, other: Row) -> Option<Row>
        ensures { result ≡ (if odd (pairing self.label other.label) then None else Some (times self other)) }
    {
        if self.label.anticommutes(other.label) {
            None
        } else {
            Some(self.times(other))
        }
    }

    fn turn(self, gate: OneQubit, qubit: u32) -> Row
        requires { (1 ≤ qubit) × (qubit ≤ 64) }
        ensures { result ≡ row (turned gate (qubit - 1) self.label) (xorb self.sign (turn_flips gate (qubit - 1) self.label)) }
    {
        let i = qubit - 1;
        let image = gate.image(self.label.at_within(i));
        let (x, z) = image.letter.bits();
        Row {
            label: Label {
                x: with_bit(self.label.x, i, x),
                z: with_bit(self.label.z, i, z),
            },
            sign: self.sign ^ image.sign,
        }
    }

    fn cross(self, control: u32, target: u32) -> Row
        requires { (1 ≤ control) × ((control ≤ 64) × ((1 ≤ target) × (target ≤ 64))) }
        ensures { result ≡ row (crossed (control - 1) (target - 1) self.label) (xorb self.sign (cross_flips (control - 1) (target - 1) self.label)) }
    {
        let c = control - 1;
        let t = target - 1;
        let xc = bit_within(self.label.x, c);
        let xt = bit_within(self.label.x, t);
        let zc = bit_within(self.label.z, c);
        let zt = bit_within(self.label.z, t);
        Row {
            label: Label {
                x: with_bit(self.label.x, t, xt ^ xc),
                z: with_bit(self.label.z, c, zc ^ zt),
            },
            sign: self.sign ^ (xc & zt & (xt == zc)),
        }
    }

    // The row after a gate.
    pub fn carried(self, placed: PlacedGate) -> Row
        ensures { result ≡ carry placed.gate self }
    {
        match placed.gate {
            Gate::One { gate, qubit } => self.turn(gate, qubit),
            Gate::Cx { control, target } => self.cross(control, target),
        }
    }

    // Carries the row through a gate on n qubits, or refuses the gate and leaves the row.
    pub fn apply(&mut self, n: u32, gate: Gate) -> Result<(), Fault>
        ensures done { Answers (placing_fault n gate) (λ _. self.new ≡ carry gate self.old) result }
        ensures kept { is_err result ≡ true → self.new ≡ self.old }
    {
        let placed = gate.placed(n)?;
        *self = self.carried(placed);
        Ok(())
    }
}
