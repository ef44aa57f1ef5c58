// How labels pair, when a product has a sign, and how labels are told from outside.
ghost use Rattle.std.specs.Prelude.{◌≡◌, ℕ, ◌+◌, ◌*◌, ◌%◌, ◌<◌, true, ◌⊎◌, length, slice_index};
ghost use Rattle.pauli.specs.declared.label.Label.{Label};
ghost use Rattle.pauli.specs.declared.letter.Letter.{Letter};
ghost use Rattle.pauli.specs.Letters.{code_of};
ghost use Rattle.pauli.specs.Labels.{plus, pairing, us, beta, fits, at, label_text, Within};
ghost use Rattle.pauli_laws.specs.Spaces.{All};

// The pairing is symmetric, linear on either side, and 0 of a label with itself.
pub fn labels_pair()
    ensures either_way { (a b : Label) → pairing a b ≡ pairing b a }
    ensures left { (a b c : Label) → pairing (plus a b) c ≡ (pairing a c + pairing b c) % 2 }
    ensures right { (a b c : Label) → pairing a (plus b c) ≡ (pairing a b + pairing a c) % 2 }
    ensures alone { (a : Label) → pairing a a ≡ 0 }
{}

// The phase of a product is even exactly where the labels commute. There it is 0 or 2 quarter turns, and the sign is a bit.
pub fn commuting_labels_have_a_sign()
    ensures parity { (a b : Label) → us a b % 2 ≡ pairing a b }
    ensures even { (a b : Label) → pairing a b ≡ 0 → (us a b ≡ 0) ⊎ (us a b ≡ 2) }
    ensures half { (a b : Label) → pairing a b ≡ 0 → 2 * beta a b ≡ us a b }
    ensures bit { (a b : Label) → beta a b < 2 }
{}

// The test for a label of n qubits is right both ways.
pub fn fitting_is_within()
    ensures fits_within { (n : ℕ) (a : Label) → fits n a ≡ true → Within n a }
    ensures within_fits { (n : ℕ) (a : Label) → Within n a → fits n a ≡ true }
{}

// The text of a label of n qubits has n letters, the letter of qubit i+1 at place i, and tells the label.
pub fn texts_tell_labels()
    ensures long { (n : ℕ) (a : Label) → length (label_text n a) ≡ n }
    ensures lettered { (n : ℕ) (a : Label) → All (λ c. (l : Letter) × (c ≡ code_of l)) (label_text n a) }
    ensures placed { (n : ℕ) (a : Label) (i : ℕ) → i < n → slice_index (label_text n a) i ≡ code_of (at a i) }
    ensures told { (n : ℕ) (a b : Label) → Within n a → Within n b → label_text n a ≡ label_text n b → a ≡ b }
{}
