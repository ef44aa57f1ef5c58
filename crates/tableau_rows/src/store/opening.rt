// Rows at an opening: the canonical ones, and given ones.
ghost use Rattle.std.specs.Prelude.{◌≡◌, ℕ, ◌+◌, ◌-◌, ◌<◌, ◌≤◌, false, length};
ghost use Rattle.pauli.specs.Faults.{Answers};
ghost use Rattle.tableau_laws.specs.Opening.{opening, open_D, open_E, open_J};
ghost use Rattle.tableau_laws.specs.Patterns.{given};
ghost use Rattle.tableau_laws.specs.Rules.{SameRows};
ghost use Rattle.tableau_rows.specs.Held.{rows_of};
ghost use Rattle.tableau_rows.specs.Openings.{opening_fault, given_fault};
ghost use Rattle.tableau_rows.specs.Parts.{row_in, pair_in};

use crate::store::{Pair, RowStore, ZERO_LABEL, ZERO_ROW, pattern};
use pauli::fault::Fault;
use pauli::label::Label;
use pauli::qubits::is_size;
use pauli::row::Row;

const NO_PAIRS: [Pair; 64] = [Pair {
    destabilizer: ZERO_LABEL,
    stabilizer: ZERO_ROW,
}; 64];

const NO_ROWS: [Row; 129] = [ZERO_ROW; 129];

fn plus(x: u64, z: u64) -> Row
    ensures { result ≡ record { label = record { x = x; z = z }; sign = false } }
{
    Row {
        label: Label { x, z },
        sign: false,
    }
}

// X at qubit j+1 for each destabilizer, and Z at qubit j+1 for each stabilizer.
fn open_pairs() -> [Pair; 64]
    ensures len { length result ≡ 64 }
    ensures destabilizers { (i : ℕ) → i < 64 → (pair_in result i).destabilizer ≡ open_D i }
    ensures stabilizers { (i : ℕ) → i < 64 → (pair_in result i).stabilizer ≡ open_E i }
{
    let mut pairs = NO_PAIRS;
    for (j, pair) in pairs.iter_mut().enumerate() {
        *pair = Pair {
            destabilizer: Label { x: 1 << j, z: 0 },
            stabilizer: plus(0, 1 << j),
        };
    }
    pairs
}

// From qubit h+1 on: two rows with Y at the first i qubits and then Z, and X, for each i below w; and one with Y at all w.
fn open_jordan_wigner(h: usize, w: usize) -> [Row; 129]
    requires { h + w ≤ 64 }
    ensures len { length result ≡ 129 }
    ensures rows { (i : ℕ) → i < w + w + 1 → row_in result i ≡ open_J h w i }
{
    let mut rows = NO_ROWS;
    let mut ys = 0u64;
    // By index, since it is also the qubit at which the Y end.
    for i in 0..w {
        let next = ys + (1 << (h + i));
        rows[i + i] = plus(ys, next);
        rows[i + i + 1] = plus(next, ys);
        ys = next;
    }
    rows[w + w] = plus(ys, ys);
    rows
}

// Given rows by kind: the labels of the destabilizers, and the stabilizers.
fn given_pairs(destabilizers: &[Row], stabilizers: &[Row]) -> [Pair; 64]
    requires { (length destabilizers.now ≡ length stabilizers.now) × (length stabilizers.now ≤ 64) }
    ensures len { length result ≡ 64 }
    ensures destabilizers { (i : ℕ) → i < length destabilizers.now → (pair_in result i).destabilizer ≡ (row_in destabilizers.now i).label }
    ensures stabilizers { (i : ℕ) → i < length destabilizers.now → (pair_in result i).stabilizer ≡ row_in stabilizers.now i }
{
    let mut pairs = NO_PAIRS;
    // By index, since after `pairs.iter_mut().zip(..)` nothing is known of what was written.
    for (j, pair) in pairs[..destabilizers.len()].iter_mut().enumerate() {
        *pair = Pair {
            destabilizer: destabilizers[j].label,
            stabilizer: stabilizers[j],
        };
    }
    pairs
}

fn given_jordan_wigner(given: &[Row]) -> [Row; 129]
    requires { length given.now ≤ 129 }
    ensures len { length result ≡ 129 }
    ensures rows { (i : ℕ) → i < length given.now → row_in result i ≡ row_in given.now i }
{
    let mut rows = NO_ROWS;
    rows[..given.len()].copy_from_slice(given);
    rows
}

// How many pairs there are for n qubits and width w, or why there are none. (They stay two numbers: they come from outside, and a type of
// both would have to refuse them first.)
fn pairs_for(n: u32, w: u32) -> Result<usize, Fault>
    ensures { Answers (opening_fault n w) (λ m. m ≡ n - w) result }
{
    if !is_size(n) {
        return Err(Fault::BadSize);
    }
    if n < w {
        return Err(Fault::BadWidth);
    }
    Ok((n - w) as usize)
}

impl RowStore {
    // The canonical rows for n qubits and width w.
    pub fn open(n: u32, w: u32) -> Result<RowStore, Fault>
        ensures { Answers (opening_fault n w) (λ s. (s.size ≡ n) × SameRows (opening n w) (rows_of s)) result }
    {
        let pairs = pairs_for(n, w)?;
        Ok(RowStore {
            size: n,
            width: w,
            pairs: open_pairs(),
            jordan_wigner: open_jordan_wigner(pairs, w as usize),
        })
    }

    // Given rows: destabilizers, stabilizers and Jordan-Wigner rows in this order. They must be 2n+1 rows of the pattern.
    pub fn from_rows(n: u32, w: u32, rows: &[Row]) -> Result<RowStore, Fault>
        ensures { Answers (given_fault n w rows.now) (λ s. (s.size ≡ n) × SameRows (given n w (row_in rows.now)) (rows_of s)) result }
    {
        let pairs = pairs_for(n, w)?;
        if rows.len() != (n + n + 1) as usize {
            return Err(Fault::BadRows);
        }
        if !(pattern::places_ok(n, pairs, rows)
            && pattern::sum_ok(pairs, w as usize, rows)
            && pattern::signs_ok(pairs, w as usize, rows))
        {
            return Err(Fault::BadRows);
        }
        let (destabilizers, others) = rows.split_at(pairs);
        let (stabilizers, jordan_wigner) = others.split_at(pairs);
        Ok(RowStore {
            size: n,
            width: w,
            pairs: given_pairs(destabilizers, stabilizers),
            jordan_wigner: given_jordan_wigner(jordan_wigner),
        })
    }
}
