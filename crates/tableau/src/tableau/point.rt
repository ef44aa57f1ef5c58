// The tableau as a value sheet and a phase point.
ghost use Rattle.phase.specs.Sheets.{Sheet};
ghost use Rattle.tableau_rows.specs.Held.{sheet_in};
ghost use Rattle.tableau.specs.Kept.{lawful_sheet};

use crate::tableau::Tableau;
use pauli::case::Case;
use pauli::fault::Fault;
use pauli::gate::Gate;
use pauli::label::Label;
use phase::point::PhasePoint;
use phase::sheet::ValueSheet;

impl ValueSheet for Tableau {
    ghost sheet = { λ t. sheet_in t.rows };

    ghost lawful = { λ t. lawful_sheet t.rows t.pattern };

    fn size(&self) -> u32 {
        self.rows.size()
    }

    fn width(&self) -> u32 {
        self.rows.width()
    }

    fn value(&self, a: Label) -> Result<Option<bool>, Fault> {
        self.rows.value(a)
    }
}

impl PhasePoint for Tableau {
    fn gate(&mut self, g: Gate) -> Result<(), Fault> {
        self.carry(g)
    }

    fn look(&self, b: Label) -> Result<(Case, u32), Fault> {
        self.case_of(b)
    }

    fn measure(&mut self, b: Label, sign: bool, coins: u64) -> Result<bool, Fault> {
        self.measure_rows(b, sign, coins)
    }
}
