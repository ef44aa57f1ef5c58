// The rows themselves, for readers.
ghost use Rattle.std.specs.Prelude.{◌≡◌};
ghost use Rattle.tableau_rows.specs.Held.{rows_of};
ghost use Rattle.tableau_rows.specs.Readers.{row_number, row_count};

use crate::store::RowStore;
use pauli::row::Row;

impl RowStore {
    // How many rows there are.
    pub fn count(&self) -> u32
        ensures { result ≡ row_count (rows_of self.now) }
    {
        self.size + self.size + 1
    }

    // The k-th row, counted from 1, in the order destabilizers, stabilizers, Jordan-Wigner rows; none past the last.
    pub fn row(&self, k: u32) -> Option<Row>
        ensures { result ≡ row_number (rows_of self.now) k }
    {
        if k < 1 || self.count() < k {
            return None;
        }
        let pairs = self.pairs();
        let i = (k - 1) as usize;
        if i < pairs.len() {
            return Some(pairs[i].destabilizer_row());
        }
        let i = i - pairs.len();
        if i < pairs.len() {
            return Some(pairs[i].stabilizer);
        }
        let i = i - pairs.len();
        Some(self.jordan_wigner[i])
    }
}
