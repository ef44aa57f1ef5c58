// What a gate makes of the rows.
ghost use Rattle.std.specs.Prelude.{◌≡◌};
ghost use Rattle.tableau_laws.specs.Rules.{SameRows, gate_rows};
ghost use Rattle.tableau_rows.specs.Held.{rows_of};

use crate::store::RowStore;
use crate::store::passes::each;
use pauli::placed::PlacedGate;

impl RowStore {
    // Every row is carried, destabilizers by label only. (That the size stays is said apart here and in the measurement, whose rows are
    // promised under a condition.)
    pub fn gate(&mut self, gate: PlacedGate)
        ensures rows { SameRows (gate_rows gate.gate (rows_of self.old)) (rows_of self.new) }
        ensures size { self.new.size ≡ self.old.size }
    {
        let pairs = self.pairs().len();
        let turning = self.jordan_wigner().len();
        each(&mut self.pairs, ..pairs, |pair| pair.carry(gate));
        each(
            &mut self.jordan_wigner,
            ..turning,
            |row| *row = row.carried(gate),
        );
    }
}
