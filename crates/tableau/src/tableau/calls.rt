// The calls of a tableau, by the rows that stand afterwards.
ghost use Rattle.std.specs.Prelude.{◌≡◌, true, is_err};
ghost use Rattle.pauli.specs.Faults.{Answers};
ghost use Rattle.pauli.specs.Gates.{gate_fault};
ghost use Rattle.tableau_laws.specs.Opening.{opening};
ghost use Rattle.tableau_laws.specs.Patterns.{given as given_rows};
ghost use Rattle.tableau_laws.specs.Rules.{SameRows, gate_rows, look_rows, measured_rows, outcome_of};
ghost use Rattle.tableau_rows.specs.Openings.{opening_fault, given_fault};
ghost use Rattle.tableau_rows.specs.Parts.{row_in};
ghost use Rattle.tableau_rows.specs.Readers.{row_count, row_number};
ghost use Rattle.tableau.specs.Tableaus.{rows_of, size_of, label_fault};

use crate::snapshot::Snapshot;
use crate::tableau::Tableau;
use pauli::case::Case;
use pauli::fault::Fault;
use pauli::gate::Gate;
use pauli::label::Label;
use pauli::row::Row;
use tableau_rows::store::RowStore;

impl Tableau {
    // The canonical rows for n qubits and width w.
    pub fn open(n: u32, w: u32) -> Result<Tableau, Fault>
        ensures { Answers (opening_fault n w) (λ t. (size_of t ≡ n) × SameRows (opening n w) (rows_of t)) result }
    {
        let rows = RowStore::open(n, w)?;
        Ok(Tableau { rows })
    }

    // Given rows: destabilizers, stabilizers and Jordan-Wigner rows in this order. They must be 2n+1 rows of the pattern.
    pub fn from_rows(n: u32, w: u32, given: &[Row]) -> Result<Tableau, Fault>
        ensures { Answers (given_fault n w given.now) (λ t. (size_of t ≡ n) × SameRows (given_rows n w (row_in given.now)) (rows_of t)) result }
    {
        let rows = RowStore::from_rows(n, w, given)?;
        Ok(Tableau { rows })
    }

    // How many rows there are.
    pub fn count(&self) -> u32
        ensures { result ≡ row_count (rows_of self.now) }
    {
        self.rows.count()
    }

    // The k-th row, counted from 1, in the order destabilizers, stabilizers, Jordan-Wigner rows; none past the last.
    pub fn row(&self, k: u32) -> Option<Row>
        ensures { result ≡ row_number (rows_of self.now) k }
    {
        self.rows.row(k)
    }

    // A gate changes every row, destabilizers by label only.
    pub fn carry(&mut self, gate: Gate) -> Result<(), Fault>
        ensures done { Answers (gate_fault (size_of self.old) gate)
            (λ _. (size_of self.new ≡ size_of self.old) × SameRows (gate_rows gate (rows_of self.old)) (rows_of self.new)) result }
        ensures kept { is_err result ≡ true → self.new ≡ self.old }
    {
        let placed = gate.placed(self.rows.size())?;
        self.rows.gate(placed);
        Ok(())
    }

    // The case of a label, by how many rows of each kind anticommute with it, and the coins that its measurement needs.
    pub fn case_of(&self, b: Label) -> Result<(Case, u32), Fault>
        ensures { Answers (label_fault (size_of self.now) b) (λ told. told ≡ look_rows (rows_of self.now) b) result }
    {
        if !b.fits(self.rows.size()) {
            return Err(Fault::BadLabel);
        }
        Ok(self.rows.look(b))
    }

    // Measures a label with a sign, by the row rules of its case. The coins are the lowest bits of a word, the first one lowest.
    pub fn measure_rows(&mut self, b: Label, sign: bool, coins: u64) -> Result<bool, Fault>
        ensures done { Answers (label_fault (size_of self.old) b)
            (λ o. (o ≡ outcome_of b sign coins (rows_of self.old)) × (size_of self.new ≡ size_of self.old)
            × SameRows (measured_rows b sign coins (rows_of self.old)) (rows_of self.new)) result }
        ensures kept { is_err result ≡ true → self.new ≡ self.old }
    {
        if !b.fits(self.rows.size()) {
            return Err(Fault::BadLabel);
        }
        Ok(self.rows.measure(b, sign, coins))
    }

    // A copy of the rows that is a value sheet and nothing more.
    pub fn snapshot(&self) -> Snapshot
        ensures { result.rows ≡ self.now.rows }
    {
        Snapshot { rows: self.rows }
    }
}
