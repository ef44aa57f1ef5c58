// The laws of value sheets. Nothing here computes: each function is a theorem, and its contract is the statement.
#![tactic(auto)]

ghost use Rattle.std.specs.Prelude.{◌≡◌, ℕ, ◌<◌, ◌≤◌, Bool, ◌&&◌};
ghost use Rattle.pauli.specs.declared.case.Case.TheVariants.{Three};
ghost use Rattle.pauli.specs.declared.label.Label.{Label};
ghost use Rattle.pauli.specs.Bits.{odd};
ghost use Rattle.pauli.specs.Labels.{pairing, Within};
ghost use Rattle.phase.specs.Effects.{signed};
ghost use Rattle.phase.specs.LabelCases.{InCase, Against};
ghost use Rattle.phase.specs.Sheets.{Values, Sheet, Valued, Central, Lawful};
ghost use Rattle.sheet_laws.specs.Laws.{with_values, SameLaws, Transport, GateLaw, CaseFour, Stated, Inclusion, CaseLaws};

// A gate, any other carrying of a sheet, and the measurements of Cases 2 and 4 keep the laws.
pub fn laws_are_kept()
    ensures same { SameLaws }
    ensures carried { Transport }
    ensures gate { GateLaw }
    ensures two { (s : Sheet) (g : Values) (b : Label) (coin : Bool) → Lawful s → ((a : Label) → g a ≡ signed (coin && odd (pairing b a)) (s.value a)) → Lawful (with_values s g) }
    ensures four { CaseFour }
    ensures stated { Stated }
{}

// The laws leave no more labels to value, and no fewer.
pub fn laws_are_full()
    ensures maximal { (s : Sheet) → Lawful s → (b : Label) → Within s.n b → ((a : Label) → Valued s.value a → pairing a b ≡ 0) → Central s.value b }
    ensures inclusion { Inclusion }
{}

// Every label has one case, and in Case 3 one count of rays, from 1 to less than the width.
pub fn cases_stand()
    ensures cases { CaseLaws }
    ensures rays { (s : Sheet) → Lawful s → (b : Label) → Within s.n b → InCase s.value b Three → (t : ℕ) × (1 ≤ t) × (t < s.width) × Against s b t }
{}
