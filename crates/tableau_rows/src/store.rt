// The rows of a tableau of n qubits and width w: n-w pairs of a destabilizer and its stabilizer, and 2w+1 Jordan-Wigner rows.
ghost use Rattle.std.specs.Prelude.{◌≡◌, ◌≤◌, length};

use pauli::label::Label;
use pauli::row::Row;

// A destabilizer is a label: as a row it has the sign plus.
#[derive(Clone, Copy)]
pub(crate) struct Pair {
    destabilizer: Label,
    stabilizer: Row,
}

// Each kind has places for the most that there can be, so that nothing is ever allocated; the first ones are in use.
#[derive(Clone, Copy)]
pub struct RowStore {
    size: u32,
    width: u32,
    pairs: [Pair; 64],
    jordan_wigner: [Row; 129],
    ghost some: { 1 ≤ size },
    ghost few: { size ≤ 64 },
    ghost narrow: { width ≤ size },
    ghost room: { (length pairs ≡ 64) × (length jordan_wigner ≡ 129) },
}

const ZERO_LABEL: Label = Label { x: 0, z: 0 };

const ZERO_ROW: Row = Row {
    label: ZERO_LABEL,
    sign: false,
};

impl RowStore {
    pub fn size(&self) -> u32
        ensures { result ≡ self.now.size }
    {
        self.size
    }

    pub fn width(&self) -> u32
        ensures { result ≡ self.now.width }
    {
        self.width
    }
}

pub mod gates;
pub mod measuring;
pub mod opening;
mod passes;
mod pattern;
pub mod questions;
pub mod readers;
