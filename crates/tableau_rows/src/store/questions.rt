// What the rows answer. Nothing changes.
ghost use Rattle.std.specs.Prelude.{◌≡◌, ◌+◌, ◌-◌, length, take};
ghost use Rattle.tableau_laws.specs.Rules.{Rows, look_rows, sheet_of};
ghost use Rattle.phase.specs.Answers.{value_answer};
ghost use Rattle.tableau_laws.specs.Tableaux.{picked, fellow, stab_count, jw_count};
ghost use Rattle.tableau_rows.specs.Held.{rows_of};

use crate::store::{Pair, RowStore, ZERO_ROW};
use pauli::case::Case;
use pauli::fault::Fault;
use pauli::label::Label;
use pauli::row::Row;

impl RowStore {
    // The pairs in use.
    pub(crate) fn pairs(&self) -> &[Pair]
        ensures rows { result.now ≡ take (self.now.size - self.now.width) self.now.pairs }
        ensures len { length result.now ≡ self.now.size - self.now.width }
    {
        &self.pairs[..(self.size - self.width) as usize]
    }

    // The Jordan-Wigner rows in use.
    pub(crate) fn jordan_wigner(&self) -> &[Row]
        ensures rows { result.now ≡ take (self.now.width + self.now.width + 1) self.now.jordan_wigner }
        ensures len { length result.now ≡ self.now.width + self.now.width + 1 }
    {
        &self.jordan_wigner[..2 * self.width as usize + 1]
    }

    // The product of the stabilizers whose destabilizers anticommute with a label.
    pub(crate) fn picked(&self, b: Label) -> Row
        ensures { result ≡ picked (rows_of self.now).D (rows_of self.now).E b (rows_of self.now).m }
    {
        let mut product = ZERO_ROW;
        for pair in self.pairs() {
            if pair.destabilizer.anticommutes(b) {
                product = product.times(pair.stabilizer);
            }
        }
        product
    }

    // How many stabilizers anticommute with a label. (A chain of `filter` and `count` takes twice as long, here and below.)
    fn stabilizers_against(&self, b: Label) -> u32
        ensures { result ≡ stab_count (rows_of self.now).m (rows_of self.now).E b }
    {
        let mut count = 0;
        for pair in self.pairs() {
            if pair.stabilizer.label.anticommutes(b) {
                count += 1;
            }
        }
        count
    }

    // How many Jordan-Wigner rows anticommute with a label. (A trait for what pairs and rows share here would be longer than either count.)
    fn jordan_wigner_against(&self, b: Label) -> u32
        ensures { result ≡ jw_count (rows_of self.now).w (rows_of self.now).J b }
    {
        let mut count = 0;
        for row in self.jordan_wigner() {
            if row.label.anticommutes(b) {
                count += 1;
            }
        }
        count
    }

    // The last Jordan-Wigner row that commutes with a label. (Where it is asked for, only one does.)
    pub(crate) fn fellow(&self, b: Label) -> Row
        ensures { result ≡ fellow (rows_of self.now).J b ((rows_of self.now).w + (rows_of self.now).w + 1) }
    {
        self.jordan_wigner()
            .iter()
            .rev()
            .find(|row| !row.label.anticommutes(b))
            .copied()
            .unwrap_or(ZERO_ROW)
    }

    // The case of a label, by how many rows of each kind anticommute with it, and the coins that its measurement needs.
    pub fn look(&self, b: Label) -> (Case, u32)
        ensures { result ≡ look_rows (rows_of self.now) b }
    {
        match (self.stabilizers_against(b), self.jordan_wigner_against(b)) {
            (0, 0) => (Case::One, 0),
            (0, turning) if turning == 2 * self.width => (Case::Two, 1),
            (0, turning) => (Case::Three, turning / 2),
            _ => (Case::Four, 1),
        }
    }

    // The value of a label, if it has one. A label with a letter beyond n is refused.
    pub fn value(&self, a: Label) -> Result<Option<bool>, Fault>
        ensures { result ≡ value_answer (sheet_of self.now.size (rows_of self.now)) a }
    {
        if !a.fits(self.size) {
            return Err(Fault::BadLabel);
        }
        let (case, _) = self.look(a);
        let value = match case {
            Case::One => Some(self.picked(a).sign),
            Case::Two => Some(self.picked(a).times(self.fellow(a)).sign),
            Case::Three | Case::Four => None,
        };
        Ok(value)
    }
}
