// The text's lines, in order.
ghost use Rattle.std.specs.Prelude.{◌≡◌, ◌≤◌, true, length, drop, is_err, IfOk};
ghost use Rattle.text.specs.Reading.{Reads};
ghost use Rattle.text.specs.Texts.{Gated};
ghost use Rattle.carrying.specs.Carrying.{Gates, Carried};
ghost use Rattle.carrying.specs.Lines.{gate_mark, Opens, Starts, Steps};

use crate::report::Report;
use pauli::fault::Fault;
use pauli::gate::Gate;
use pauli::label::Label;
use pauli::row::Row;
use std::alloc::{AllocError, Global};
use text::end::End;
use text::limits::MOST_BYTES;
use text::read::Fields;
use text::stop::{Stop, at};

// A row of `size` qubits, and the lines of gates that are left for it.
#[derive(Clone, Copy)]
struct Carrier<'a> {
    size: u32,
    row: Row,
    lines: Fields<'a>,
}

impl<'a> Carrier<'a> {
    // What the first line of a text says.
    fn of(text: &'a [u8]) -> Result<Carrier<'a>, Fault>
        ensures { Opens text.entry result }
    {
        let mut lines = Fields { text, at: 0 };
        let sign = lines.sign(End::Comma)?;
        let letters = lines.letters(End::LineFeed)?;
        if letters.len() > 64 {
            return Err(Fault::BadSize);
        }
        let size = letters.len() as u32;
        let label = Label::from_letters(size, letters)?;
        let row = Row { label, sign };
        Ok(Carrier { size, row, lines })
    }

    // Carries the row through the gate of the next line.
    fn step(&mut self) -> Result<(), Fault>
        requires { (1 ≤ self.old.size) × (self.old.size ≤ 64) }
        ensures done { Steps self.old result self.new }
        ensures kept { is_err result ≡ true → self.new.row ≡ self.old.row }
    {
        let gate = gate_line(&mut self.lines)?;
        self.row.apply(self.size, gate)
    }
}

// A gate's line. (In a circuit the kind of the line is read first, since others begin there too.)
fn gate_line(line: &mut Fields) -> Result<Gate, Fault>
    ensures { Reads gate_mark Gated 10 line.old result line.new }
{
    let mut fields = *line;
    if fields.byte(End::Comma)? != b'G' {
        return Err(Fault::BadForm);
    }
    let gate = fields.gate(End::LineFeed)?;
    *line = fields;
    Ok(gate)
}

// The row of a text's first line. The text's size is looked at before that; line 0 stands for the text as a whole.
fn start(text: &[u8]) -> Result<Carrier<'_>, Stop>
    ensures { Starts text.entry result }
{
    if text.len() > MOST_BYTES {
        return at(0, Err(Fault::BadForm));
    }
    if text.is_empty() {
        return at(0, Err(Fault::TextEnded));
    }
    at(1, Carrier::of(text))
}

// Carries the row that the first line names through the gates of the other lines, up to the text's end or the first line refused.
pub fn carry(heap: Global, text: &[u8]) -> Result<Report, AllocError>
    ensures { IfOk result (λ p. Carried text.now p.size p.rows.items p.ending) }
{
    match start(text) {
        Ok(carrier) => through_gates(heap, carrier),
        Err(stop) => Ok(Report::refused(heap, stop)),
    }
}

// The lines that are left, line 2 being the first of them.
fn through_gates(heap: Global, start: Carrier) -> Result<Report, AllocError>
    requires { (1 ≤ start.size) × ((start.size ≤ 64) × ((start.lines.at ≤ length start.lines.text.now) × (length start.lines.text.now ≤ 32768))) }
    ensures { IfOk result (λ p. (p.size ≡ start.entry.size) × Gates start.entry.size start.entry.row 2 (drop start.entry.lines.at start.entry.lines.text.now) p.rows.items p.ending) }
{
    let size = start.size;
    let mut rows = Vec::new(heap);
    let mut carrier = start;
    let mut line = 2;
    // The reader moves on by itself; `line` counts for the reports.
    while carrier.lines.at < carrier.lines.text.len() {
        if let Err(fault) = carrier.step() {
            let ending = Err(Stop { line, fault });
            return Ok(Report { size, rows, ending });
        }
        rows.push(carrier.row)?;
        line += 1;
    }
    let ending = Ok(());
    Ok(Report { size, rows, ending })
}
