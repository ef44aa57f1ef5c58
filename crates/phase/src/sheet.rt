// The interface of a value sheet.
ghost use Rattle.std.specs.Prelude.{◌≡◌};
ghost use Rattle.phase.specs.Answers.{value_answer};
ghost use Rattle.phase.specs.Sheets.{Sheet, Lawful};

use pauli::fault::Fault;
use pauli::label::Label;

// A sheet means n, a width, and no value, 0 or 1 for each label, within the laws. Its questions change nothing.
pub trait ValueSheet {
    ghost sheet: { Self → Sheet };

    fn size(&self) -> u32
        ensures { result ≡ (sheet self.now).n };

    fn width(&self) -> u32
        ensures { result ≡ (sheet self.now).width };

    // The value of a label, if it has one. A label with a letter beyond n is refused.
    fn value(&self, a: Label) -> Result<Option<bool>, Fault>
        ensures { result ≡ value_answer (sheet self.now) a };

    ghost lawful: { (s : Self) → Lawful (sheet s) };
}
