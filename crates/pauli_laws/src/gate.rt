// What every gate does that n qubits accept, whichever gate and however many qubits.
ghost use Rattle.std.specs.Prelude.{◌≡◌, ℕ, false, None};
ghost use Rattle.pauli.specs.declared.label.Label.{Label};
ghost use Rattle.pauli.specs.declared.row.Row.{Row};
ghost use Rattle.pauli.specs.declared.gate.Gate.{Gate};
ghost use Rattle.pauli.specs.Labels.{plus, pairing, zero_label, Within};
ghost use Rattle.pauli.specs.Rows.{times};
ghost use Rattle.pauli.specs.Gates.{moved, flips, carry, gate_fault};
ghost use Rattle.pauli_laws.specs.Carriers.{Carries};

// A gate carries sums to sums and keeps pairings. Each label of n qubits comes from exactly one, and the zero label stays as it is.
pub fn gates_carry_labels()
    ensures sums { (n : ℕ) (g : Gate) → gate_fault n g ≡ None → (a b : Label) → moved g (plus a b) ≡ plus (moved g a) (moved g b) }
    ensures pairings { (n : ℕ) (g : Gate) → gate_fault n g ≡ None → (a b : Label) → pairing (moved g a) (moved g b) ≡ pairing a b }
    ensures within { (n : ℕ) (g : Gate) → gate_fault n g ≡ None → (a : Label) → Within n a → Within n (moved g a) }
    ensures from_one { (n : ℕ) (g : Gate) → gate_fault n g ≡ None → (a : Label) → Within n a
        → (b : Label) × Within n b × (moved g b ≡ a) × ((c : Label) → moved g c ≡ a → c ≡ b) }
    ensures zero { (n : ℕ) (g : Gate) → gate_fault n g ≡ None → (moved g zero_label ≡ zero_label) × (flips g zero_label ≡ false) }
{}

// A gate carries the product of commuting rows to the product of the carried rows; and a gate is its own way back on labels.
pub fn gates_carry_rows()
    ensures products { (n : ℕ) (g : Gate) → gate_fault n g ≡ None → (r s : Row) → pairing r.label s.label ≡ 0
        → carry g (times r s) ≡ times (carry g r) (carry g s) }
    ensures carries { (n : ℕ) (g : Gate) → gate_fault n g ≡ None → Carries n (moved g) (moved g) (flips g) }
{}
