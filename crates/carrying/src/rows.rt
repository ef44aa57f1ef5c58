// Rows as lines.
ghost use Rattle.std.specs.Prelude.{◌≤◌, [], length, IfOk};
ghost use Rattle.text.specs.Lines.{Filled};
ghost use Rattle.carrying.specs.Carrying.{row_line};

use pauli::fault::Fault;
use pauli::row::Row;
use text::write;
use text::write::Field;

// The size stands beside the row, since a label does not know of how many qubits it is.

// Writes the line of a row of `size` qubits into the start of a buffer, and answers its length.
pub fn row_line(size: u32, row: Row, out: &mut [u8]) -> Result<usize, Fault>
    ensures line { Filled (row_line size row []) out.old out.new result }
    ensures within { IfOk result (λ len. len ≤ length out.new) }
{
    let letters = Field::Letters {
        size,
        label: row.label,
    };
    write::line(&[Field::Sign(row.sign), letters], out)
}
