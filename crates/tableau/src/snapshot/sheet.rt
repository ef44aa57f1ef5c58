// What a snapshot answers.
ghost use Rattle.phase.specs.Sheets.{Sheet};
ghost use Rattle.tableau_rows.specs.Held.{sheet_in};
ghost use Rattle.tableau.specs.Kept.{lawful_sheet};

use crate::snapshot::Snapshot;
use pauli::fault::Fault;
use pauli::label::Label;
use phase::sheet::ValueSheet;

// The same three lines as a tableau's: a snapshot is a type of its own, since it takes no gates and no measurements.
impl ValueSheet for Snapshot {
    ghost sheet = { λ s. sheet_in s.rows };

    ghost lawful = { λ s. lawful_sheet s.rows s.pattern };

    fn size(&self) -> u32 {
        self.rows.size()
    }

    fn width(&self) -> u32 {
        self.rows.width()
    }

    fn value(&self, a: Label) -> Result<Option<bool>, Fault> {
        self.rows.value(a)
    }
}
