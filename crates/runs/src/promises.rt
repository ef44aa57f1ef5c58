// The promises about every run. Nothing here computes: each function is a theorem, and its contract is the statement.
ghost use Rattle.std.specs.Prelude.{◌≡◌, List, [], Some};
ghost use Rattle.pauli.specs.declared.case.Case.{Case};
ghost use Rattle.pauli.specs.declared.row.Row.{Row};
ghost use Rattle.pauli.specs.Rows.{product};
ghost use Rattle.phase.specs.Sheets.{Sheet, Lawful};
ghost use Rattle.runs.specs.Promises.{Moment, History, CasesOf, Throughout};
ghost use Rattle.runs.specs.Standing.{Among, TrueTo};
ghost use Rattle.runs.specs.States.{State};

// Whatever calls were made to a session just opened, directly or from a list, and in whatever order: the three promises hold at
// each moment. The cases that the coin count speaks of are told by the states.
pub fn promises_hold()
    ensures always { (opened : State) → opened.events ≡ [] → (ms : List Moment) → History opened ms → Throughout opened ms }
    ensures one { (s : State) (ms : List Moment) (cs ds : List Case) → CasesOf s ms cs → CasesOf s ms ds → cs ≡ ds }
{}

// Why an outcome stands: where rows are true to a sheet, the product of any of them has the product's sign for its value.
pub fn standing_rows_multiply()
    ensures { (s : Sheet) (rows : List Row) → Lawful s → TrueTo s rows → (ps : List Row) → Among ps rows → s.value (product ps).label ≡ Some (product ps).sign }
{}
