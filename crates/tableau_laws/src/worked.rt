// Rows and runs worked out by the definitions.
ghost use Rattle.std.specs.Prelude.{◌≡◌, ℕ, true, false, [], ◌∷◌};
ghost use Rattle.pauli.specs.declared.case.Case.TheVariants.{One, Two, Three};
ghost use Rattle.pauli.specs.declared.letter.Letter.TheVariants.{I, X, Y, Z};
ghost use Rattle.phase.specs.Sheets.{Lawful};
ghost use Rattle.pauli_laws.specs.Words.{negative, positive};
ghost use Rattle.tableau_laws.specs.Opening.{opening};
ghost use Rattle.tableau_laws.specs.Rules.{all_rows, look_rows, outcome_of, sheet_of};
ghost use Rattle.tableau_laws.specs.Worked.{IZ, XI, ZI, ZIZ, after_ZIZ, after_ZX, after_one, after_three, after_two};

// The opening for two qubits and width 2, and the one for one qubit and width 1: a sheet that keeps the laws.
pub fn worked_openings()
    ensures two { all_rows 2 (opening 2 2) ≡ positive (Z ∷ I ∷ []) ∷ positive (X ∷ I ∷ []) ∷ positive (Y ∷ Z ∷ []) ∷ positive (Y ∷ X ∷ []) ∷ positive (Y ∷ Y ∷ []) ∷ [] }
    ensures one { all_rows 1 (opening 1 1) ≡ positive (Z ∷ []) ∷ positive (X ∷ []) ∷ positive (Y ∷ []) ∷ [] }
    ensures lawful { Lawful (sheet_of 1 (opening 1 1)) }
{}

// Four measurements on two qubits of width 2, with coins 1, 0, 1: their cases and coin counts, their outcomes, and the rows after the third.
pub fn worked_run()
    ensures cases { (look_rows (opening 2 2) ZI ≡ (Two, 1)) × (look_rows after_one XI ≡ (Two, 1)) × (look_rows after_two IZ ≡ (Three, 1)) × (look_rows after_three IZ ≡ (One, 0)) }
    ensures outcomes { (outcome_of ZI false 1 (opening 2 2) ≡ false) × (outcome_of XI false 0 after_one ≡ true) × (outcome_of IZ false 1 after_two ≡ true)
        × ((word : ℕ) → outcome_of IZ true word after_three ≡ false) }
    ensures rows { all_rows 2 after_three ≡ positive (Y ∷ Y ∷ []) ∷ negative (I ∷ Z ∷ []) ∷ negative (Z ∷ Z ∷ []) ∷ positive (X ∷ Z ∷ []) ∷ positive (Y ∷ I ∷ []) ∷ [] }
{}

// In Case 3 the outcome belongs to the whole label, and in Case 4 destabilizers before the one replaced are multiplied too.
pub fn worked_steps()
    ensures three { after_ZIZ.E 1 ≡ negative (I ∷ I ∷ Z ∷ []) }
    ensures again { (word : ℕ) → outcome_of ZIZ false word after_ZIZ ≡ false }
    ensures four { all_rows 2 after_ZX ≡ positive (X ∷ Z ∷ []) ∷ positive (I ∷ Z ∷ []) ∷ positive (Z ∷ I ∷ []) ∷ positive (Z ∷ X ∷ []) ∷ positive (I ∷ I ∷ []) ∷ [] }
{}
