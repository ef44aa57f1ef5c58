// Passes over pairs and rows, and what each makes of one.
ghost use Rattle.std.specs.Prelude.{◌≡◌, ℕ, ◌+◌, ◌<◌, ◌≤◌, false, length, slice_index_or};
ghost use Rattle.pauli.specs.Gates.{moved, carry};
ghost use Rattle.tableau_laws.specs.Rules.{flipped, cleared, cleared_row, new_sign};
ghost use Rattle.tableau_rows.specs.Parts.{Changes, label_in, Parted, Paired};

use crate::store::{Pair, ZERO_LABEL};
use pauli::bits::bit;
use pauli::label::Label;
use pauli::placed::PlacedGate;
use pauli::row::Row;
use std::ops::RangeTo;

// Changes what stands at each of the places in use. They are cut out here, since the check has no rule for `&mut self.pairs[..used]` where
// the struct has invariants.
pub(crate) fn each<T, F: Fn(&mut T)>(places: &mut [T], used: RangeTo<usize>, change: F)
    requires callable { F.IsAlwaysCallable change }
    requires room { used.end ≤ length places.old }
    ensures { (d : T) (i : ℕ) → i < used.end
        → Changes (F.post change) (slice_index_or places.old i d) (slice_index_or places.new i d) }
{
    for place in places[used].iter_mut() {
        change(place);
    }
}

impl Pair {
    // The destabilizer as a row.
    pub(crate) fn destabilizer_row(self) -> Row
        ensures { result ≡ record { label = self.destabilizer; sign = false } }
    {
        Row {
            label: self.destabilizer,
            sign: false,
        }
    }

    // A gate at both, at the destabilizer without the sign that it adds.
    pub(crate) fn carry(&mut self, gate: PlacedGate)
        ensures destabilizer { self.new.destabilizer ≡ moved gate.gate self.old.destabilizer }
        ensures stabilizer { self.new.stabilizer ≡ carry gate.gate self.old.stabilizer }
    {
        self.destabilizer = self.destabilizer_row().carried(gate).label;
        self.stabilizer = self.stabilizer.carried(gate);
    }

    // Each of the two that anticommutes with `b` is multiplied by `e`.
    pub(crate) fn clear(&mut self, b: Label, e: Row)
        ensures destabilizer { self.new.destabilizer ≡ cleared b e.label self.old.destabilizer }
        ensures stabilizer { self.new.stabilizer ≡ cleared_row b e self.old.stabilizer }
    {
        if self.destabilizer.anticommutes(b) {
            self.destabilizer = self.destabilizer.product(e.label);
        }
        clear(&mut self.stabilizer, b, e);
    }
}

// A row that anticommutes with `b` is multiplied by `e`.
pub(crate) fn clear(row: &mut Row, b: Label, e: Row)
    ensures { row.new ≡ cleared_row b e row.old }
{
    if row.label.anticommutes(b) {
        *row = row.times(e);
    }
}

// A coin 1 flips the sign of a row that anticommutes with `b`.
pub(crate) fn flip(row: &mut Row, b: Label, coin: bool)
    ensures { row.new ≡ flipped b coin row.old }
{
    row.sign ^= coin & row.label.anticommutes(b);
}

// Parts rows in two, by whether they anticommute with `b`: the labels of those that do go to `turned`, and the others, each times `g`, to
// `rest`, both in row order. The answer is how many do.
pub(crate) fn part(rows: &[Row], b: Label, g: Row, turned: &mut [Label], rest: &mut [Row]) -> usize
    requires { (length rows.now ≤ length turned.old) × (length rows.now ≤ length rest.old) }
    ensures is { Parted b g rows.now rest.new turned.new (length rows.now) result }
    ensures few { result ≤ length rows.now }
{
    let mut found = 0;
    let mut others = 0;
    for row in rows {
        if row.label.anticommutes(b) {
            turned[found] = row.label;
            found += 1;
        } else {
            rest[others] = row.times(g);
            others += 1;
        }
    }
    found
}

// The first new stabilizer has the sign of `g`, and each later one its coin.
fn new_sign(g: Row, coins: u64, k: usize) -> bool
    requires { k < 64 }
    ensures { result ≡ new_sign g coins k }
{
    if k == 0 { g.sign } else { bit(coins, k as u32) }
}

// Each two labels make a stabilizer and its destabilizer, with the sum of all labels before the two added to both.
pub(crate) fn pair_up(labels: &[Label], g: Row, coins: u64, pairs: &mut [Pair])
    requires { (length pairs.old + length pairs.old ≤ length labels.now) × (length pairs.old ≤ 64) }
    ensures { Paired (label_in labels.now) g coins pairs.new (length pairs.new) }
{
    let mut sum = ZERO_LABEL;
    // By index, since k is also the coin's place, and after `pairs.iter_mut().zip(..)` nothing is known of what was written.
    for (k, pair) in pairs.iter_mut().enumerate() {
        let stabilizer = labels[2 * k];
        let destabilizer = labels[2 * k + 1];
        *pair = Pair {
            destabilizer: destabilizer.product(sum),
            stabilizer: Row {
                label: stabilizer.product(sum),
                sign: new_sign(g, coins, k),
            },
        };
        sum = destabilizer.product(stabilizer.product(sum));
    }
}
