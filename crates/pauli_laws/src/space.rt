// Labels as a space: what they span, and how many it takes.
ghost use Rattle.std.specs.Prelude.{◌≡◌, ℕ, ◌+◌, ◌<◌, ◌⊎◌, List, length};
ghost use Rattle.pauli.specs.declared.label.Label.{Label};
ghost use Rattle.pauli.specs.Labels.{pairing, zero_label, Within};
ghost use Rattle.pauli_laws.specs.Pigeons.{Below, Inj, Hits};
ghost use Rattle.pauli_laws.specs.Spaces.{All, Span, Dependent, Duals};

// The pigeonhole: a one-to-one map of the numbers below m into themselves hits each of them.
pub fn one_to_one_is_onto()
    ensures { (m : ℕ) (f : ℕ → ℕ) → Below m f → Inj m f → (y : ℕ) → y < m → Hits m f y }
{}

// Labels are dependent, or each has a dual: a label that anticommutes with it and with no other.
pub fn independent_labels_have_duals()
    ensures { (rs : List Label) → Dependent rs ⊎ ((vs : List Label) × Duals rs vs) }
{}

// 2n labels of n qubits that have duals span all labels of n qubits, so that only the zero label commutes with all of them.
pub fn dual_labels_span()
    ensures span { (n : ℕ) (rs vs : List Label) → length rs ≡ n + n → All (Within n) rs → Duals rs vs → (a : Label) → Within n a → Span rs a }
    ensures only_zero { (n : ℕ) (rs vs : List Label) → length rs ≡ n + n → All (Within n) rs → Duals rs vs
        → (a : Label) → Within n a → All (λ s. pairing s a ≡ 0) rs → a ≡ zero_label }
{}
