// What came of a text.
ghost use Rattle.std.specs.Prelude.{◌≡◌, [], Err};

use pauli::row::Row;
use std::alloc::Global;
use text::stop::Stop;

// How many qubits the row has, the row after each gate, and how the text ended: all of its gates were carried out, or a line was refused.
#[derive(Drop)]
pub struct Report {
    pub size: u32,
    pub rows: Vec<Row>,
    pub ending: Result<(), Stop>,
}

impl Report {
    // What comes of a text of which no gate is reached.
    pub(crate) fn refused(heap: Global, stop: Stop) -> Report
        ensures { (result.size ≡ 0) × ((result.rows.items ≡ []) × (result.ending ≡ Err stop)) }
    {
        Report {
            size: 0,
            rows: Vec::new(heap),
            ending: Err(stop),
        }
    }
}
