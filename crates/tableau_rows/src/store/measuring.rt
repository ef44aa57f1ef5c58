// What a measurement makes of the rows, case by case.
ghost use Rattle.std.specs.Prelude.{◌≡◌, ℕ, ◌+◌, ◌-◌, ◌<◌, MatchOption};
ghost use Rattle.tableau_laws.specs.Rules.{SameRows, two_rows, three_rows, four_at, first_against, measured_rows, outcome_of};
ghost use Rattle.tableau_laws.specs.Tableaux.{stab_count, jw_count};
ghost use Rattle.tableau_rows.specs.Held.{rows_of};

use crate::store::passes::{clear, each, flip, pair_up, part};
use crate::store::{Pair, RowStore, ZERO_LABEL, ZERO_ROW};
use pauli::case::Case;
use pauli::label::Label;
use pauli::row::Row;

impl RowStore {
    // Case 2: a coin 1 flips the sign of the Jordan-Wigner rows that anticommute with the label.
    fn flip(&mut self, b: Label, coin: bool)
        ensures { SameRows (two_rows b coin (rows_of self.old)) (rows_of self.new) }
    {
        let turning = self.jordan_wigner().len();
        each(&mut self.jordan_wigner, ..turning, |row| flip(row, b, coin));
    }

    // The place of the first stabilizer that anticommutes with a label.
    fn first_against(&self, b: Label) -> Option<usize>
        ensures { MatchOption result (stab_count (rows_of self.now).m (rows_of self.now).E b ≡ 0)
            (λ k. (k < (rows_of self.now).m) × (k ≡ first_against (rows_of self.now).m (rows_of self.now).E b)) }
    {
        self.pairs()
            .iter()
            .position(|pair| pair.stabilizer.label.anticommutes(b))
    }

    // Case 4 at the stabilizer at place k: it gives way to the row (b, value), and becomes the destabilizer of that row.
    // Every other row that anticommutes with b is multiplied by it.
    fn replace(&mut self, k: usize, b: Label, value: bool)
        requires { k < self.old.size - self.old.width }
        ensures { SameRows (four_at k b value (rows_of self.old)) (rows_of self.new) }
    {
        let pairs = self.pairs().len();
        let turning = self.jordan_wigner().len();
        let old = self.pairs[k].stabilizer;
        each(&mut self.pairs, ..pairs, |pair| pair.clear(b, old));
        each(&mut self.jordan_wigner, ..turning, |row| clear(row, b, old));
        self.pairs[k] = Pair {
            destabilizer: old.label,
            stabilizer: Row {
                label: b,
                sign: value,
            },
        };
    }

    // Case 3: t pairs are appended, made of the label and of the 2t Jordan-Wigner rows that anticommute with it, and the width falls by t.
    fn narrow(&mut self, b: Label, value: bool, coins: u64)
        ensures rows { (t : ℕ) → jw_count (rows_of self.old).w (rows_of self.old).J b ≡ t + t
            → SameRows (three_rows t b value coins (rows_of self.old)) (rows_of self.new) }
        ensures size { self.new.size ≡ self.old.size }
    {
        let row = Row {
            label: b,
            sign: value,
        };
        let first = row.times(self.picked(b));
        let mut turned = [ZERO_LABEL; 129];
        let mut rest = [ZERO_ROW; 129];
        let found = part(self.jordan_wigner(), b, first, &mut turned, &mut rest);
        turned[0] = first.label;
        let old = self.pairs().len();
        let more = found / 2;
        // Into a copy, since the check has no rule for `&mut self.pairs[old..]` where the struct has invariants.
        let mut pairs = self.pairs;
        pair_up(&turned, first, coins, &mut pairs[old..old + more]);
        self.pairs = pairs;
        self.jordan_wigner = rest;
        self.width -= more as u32;
    }

    // Measures a label with a sign, and answers the outcome. The number of Jordan-Wigner rows that anticommute with a label is even in every
    // tableau, and the row rules of Case 3 ask for that.
    pub fn measure(&mut self, b: Label, sign: bool, coins: u64) -> bool
        ensures outcome { result ≡ outcome_of b sign coins (rows_of self.old) }
        ensures rows { (t : ℕ) → jw_count (rows_of self.old).w (rows_of self.old).J b ≡ t + t
            → SameRows (measured_rows b sign coins (rows_of self.old)) (rows_of self.new) }
        ensures size { self.new.size ≡ self.old.size }
    {
        let coin = coins % 2 == 1;
        let (case, _) = self.look(b);
        match case {
            Case::One => self.picked(b).sign ^ sign,
            Case::Two => {
                let read = self.picked(b).times(self.fellow(b)).sign;
                self.flip(b, coin);
                read ^ sign
            }
            Case::Three => {
                self.narrow(b, coin ^ sign, coins);
                coin
            }
            Case::Four => {
                if let Some(k) = self.first_against(b) {
                    self.replace(k, b, coin ^ sign);
                }
                coin
            }
        }
    }
}
