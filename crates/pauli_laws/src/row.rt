// The product of rows.
ghost use Rattle.std.specs.Prelude.{◌≡◌, List, [], ◌∷◌, map, length};
ghost use Rattle.pauli.specs.declared.letter.Letter.{Letter};
ghost use Rattle.pauli.specs.declared.letter.Letter.TheVariants.{X, Y, Z};
ghost use Rattle.pauli.specs.declared.gate.OneQubit.TheVariants as Turn;
ghost use Rattle.pauli.specs.declared.gate.Gate.TheVariants.{One, Cx};
ghost use Rattle.pauli.specs.declared.row.Row.{Row};
ghost use Rattle.pauli.specs.Letters.{code_of};
ghost use Rattle.pauli.specs.Labels.{pairing, label_text};
ghost use Rattle.pauli.specs.Rows.{times, zero_row};
ghost use Rattle.pauli.specs.Gates.{carry};
ghost use Rattle.pauli_laws.specs.Words.{word, positive, negative};

// Commuting rows multiply to the same row either way round and in any grouping. A row times itself is the zero row, which is neutral.
pub fn commuting_rows_multiply()
    ensures either_way { (r s : Row) → pairing r.label s.label ≡ 0 → times r s ≡ times s r }
    ensures grouped { (r s t : Row) → pairing r.label s.label ≡ 0 → pairing r.label t.label ≡ 0 → pairing s.label t.label ≡ 0
        → times (times r s) t ≡ times r (times s t) }
    ensures squared { (r : Row) → times r r ≡ zero_row }
    ensures neutral_left { (r : Row) → times zero_row r ≡ r }
    ensures neutral_right { (r : Row) → times r zero_row ≡ r }
{}

// Three rows worked out, letter by letter: XX times ZZ is -YY, H carries Y to -Y, and CX from 1 to 2 carries XZ to -YY.
pub fn worked_rows()
    ensures written { (ls : List Letter) → label_text (length ls) (word ls) ≡ map code_of ls }
    ensures product { times (positive (X ∷ X ∷ [])) (positive (Z ∷ Z ∷ [])) ≡ negative (Y ∷ Y ∷ []) }
    ensures turned { carry (One Turn.H 1) (positive (Y ∷ [])) ≡ negative (Y ∷ []) }
    ensures crossed { carry (Cx 1 2) (positive (X ∷ Z ∷ [])) ≡ negative (Y ∷ Y ∷ []) }
{}
