// That a look has one answer.
ghost use Rattle.std.specs.Prelude.{◌≡◌, ℕ, ◌≤◌};
ghost use Rattle.pauli.specs.declared.case.Case.{Case};
ghost use Rattle.pauli.specs.declared.label.Label.{Label};
ghost use Rattle.phase.specs.LabelCases.{Looked};
ghost use Rattle.phase.specs.Sheets.{Sheet, Lawful};

// A label has one case and one count of coins, and the count is at most the number of qubits.
pub fn looks_stand()
    ensures one { (s : Sheet) → Lawful s → (b : Label) (c d : Case) (j k : ℕ) → Looked s b c j → Looked s b d k → (c ≡ d) × (j ≡ k) }
    ensures few { (s : Sheet) → Lawful s → (b : Label) (c : Case) (k : ℕ) → Looked s b c k → k ≤ s.n }
{}
