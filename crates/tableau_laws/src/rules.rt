// The row rules do what a gate, a look and a measurement are to do.
ghost use Rattle.tableau_laws.specs.Laws.{LookLaw, GateLaw, MeasureLaw, FirstLaw, OrderLaw};

// The counts of anticommuting stabilizers and Jordan-Wigner rows tell the case of a label and the coins.
pub fn counts_tell_the_case()
    ensures { LookLaw }
{}

// A gate on every row leaves rows of the pattern, and is that gate on their sheet.
pub fn gates_act_on_rows()
    ensures { GateLaw }
{}

// A measurement by the rule of its case leaves rows of the pattern, and is that measurement of their sheet.
pub fn measurements_act_on_rows()
    ensures { MeasureLaw }
{}

// The places that the rules of Cases 3 and 4 speak of are those of the rows in order.
pub fn places_are_in_order()
    ensures first { FirstLaw }
    ensures order { OrderLaw }
{}
