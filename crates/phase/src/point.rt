// The interface of a phase point: a value sheet that also takes gates, looks and measurements.
ghost use Rattle.std.specs.Prelude.{◌≡◌, true, is_err};
ghost use Rattle.phase.specs.Answers.{GateAnswer, LookAnswer, MeasureAnswer};

use crate::sheet::ValueSheet;
use pauli::case::Case;
use pauli::fault::Fault;
use pauli::gate::Gate;
use pauli::label::Label;

// A refused call leaves the whole point as it was.
pub trait PhasePoint: ValueSheet {
    // Refused if a qubit is not one of the n, or if one is named twice.
    fn gate(&mut self, g: Gate) -> Result<(), Fault>
        ensures done { GateAnswer (Self.ValueSheet.sheet self.old) g result (Self.ValueSheet.sheet self.new) }
        ensures kept { is_err result ≡ true → self.new ≡ self.old };

    // The case of a label, and the coins that its measurement needs. A label with a letter beyond n is refused.
    fn look(&self, b: Label) -> Result<(Case, u32), Fault>
        ensures { LookAnswer (Self.ValueSheet.sheet self.now) b result };

    // Measures a label with a sign, which is no row: a row's sign is a value that its label has. The coins are the lowest bits of a word, the first one lowest.
    // A label with a letter beyond n is refused.
    fn measure(&mut self, b: Label, sign: bool, coins: u64) -> Result<bool, Fault>
        ensures done { MeasureAnswer (Self.ValueSheet.sheet self.old) b sign coins result (Self.ValueSheet.sheet self.new) }
        ensures kept { is_err result ≡ true → self.new ≡ self.old };
}
