// A session: a point and a source, which are its own alone, and the journal of what was done and measured.
ghost use Rattle.std.specs.Prelude.{◌≡◌, ◌≤◌, true, [], length, is_err};
ghost use Rattle.phase.specs.Answers.{value_answer};
ghost use Rattle.pauli.specs.Faults.{Answers};
ghost use Rattle.pauli.specs.Gates.{gate_fault, placeable};
ghost use Rattle.journal.specs.Places.{all_lawful};
ghost use Rattle.runs.specs.States.{state};
ghost use Rattle.runs.specs.Readings.{Read, ReadLine};
ghost use Rattle.runs.specs.Steps.{GateStep, ConditionalStep, MeasureStep, Step};
ghost use Rattle.session.specs.Seen.{seen};

use coins::source::{CoinSource, draw_word};
use journal::Journal;
use journal_lines::event::{Event, Measurement};
use journal_lines::lines::LONGEST_LINE;
use pauli::fault::Fault;
use pauli::gate::{Gate, OneQubit};
use pauli::label::Label;
use phase::point::PhasePoint;
use phase::sheet::ValueSheet;
use runs::answer::{Answer, Conditional, Line};
use runs::call::Call;

// Contracts see it by `seen`: a Model would hide the point and the source, and `self.new ≡ self.old` would promise less of them.
pub struct Session<P: PhasePoint, S: CoinSource> {
    point: P,
    source: S,
    journal: Journal,
}

impl<P: PhasePoint, S: CoinSource> Session<P, S> {
    // Each call that may refuse promises `kept` itself: no type can say what stays from one moment to the next.

    // Refuses a gate's qubits before anything has changed. Only the refusal counts: the point takes the gate as it came.
    fn check(&self, gate: Gate) -> Result<(), Fault>
        ensures { Answers (gate_fault (P.ValueSheet.sheet self.now.point).n gate) (λ _. placeable gate ≡ true) result }
    {
        gate.placed(self.point.size())?;
        Ok(())
    }

    // A session over a point and a source in any state, with an empty journal.
    pub fn open(point: P, source: S) -> Session<P, S>
        ensures seen { seen P.ValueSheet.sheet S.coins result ≡ state (P.ValueSheet.sheet point) (S.coins source) [] }
        ensures own { (result.point ≡ point) × (result.source ≡ source) }
    {
        Session {
            point,
            source,
            journal: Journal::new(),
        }
    }

    // The point and the source again. The journal ends here.
    pub fn close(self) -> (P, S)
        ensures { (result.0 ≡ self.point) × (result.1 ≡ self.source) }
    {
        let (point, source, _) = self.into_parts();
        (point, source)
    }

    // The point, the source and the journal, each as it is now.
    pub fn into_parts(self) -> (P, S, Journal)
        ensures { (result.0 ≡ self.point) × (result.1 ≡ self.source) × (result.2 ≡ self.journal) }
    {
        let Session {
            point,
            source,
            journal,
        } = self;
        (point, source, journal)
    }

    pub fn gate(&mut self, gate: Gate) -> Result<(), Fault>
        ensures step { GateStep (seen P.ValueSheet.sheet S.coins self.old) gate result (seen P.ValueSheet.sheet S.coins self.new) }
        ensures kept { is_err result ≡ true → self.new ≡ self.old }
    {
        self.check(gate)?;
        self.journal.add(Event::Gate(gate))?;
        self.point.gate(gate)
    }

    // A one-qubit gate that is done if the outcome of that number is 1, and passed over otherwise. Outcomes count from 1.
    pub fn conditional(
        &mut self,
        outcome: u32,
        gate: OneQubit,
        qubit: u32,
    ) -> Result<Conditional, Fault>
        ensures step { ConditionalStep (seen P.ValueSheet.sheet S.coins self.old) outcome gate qubit result (seen P.ValueSheet.sheet S.coins self.new) }
        ensures kept { is_err result ≡ true → self.new ≡ self.old }
    {
        let turn = Gate::One { gate, qubit };
        self.check(turn)?;
        let done = self.journal.outcome(outcome)?;
        self.journal.add(Event::Conditional {
            done,
            outcome,
            gate,
            qubit,
        })?;
        if !done {
            return Ok(Conditional::PassedOver);
        }
        self.point.gate(turn)?;
        Ok(Conditional::Done)
    }

    // Looks at a label, draws exactly the coins that it needs, and measures it with a sign.
    pub fn measure(&mut self, label: Label, sign: bool) -> Result<bool, Fault>
        ensures step { MeasureStep (seen P.ValueSheet.sheet S.coins self.old) label sign result (seen P.ValueSheet.sheet S.coins self.new) }
        ensures kept { is_err result ≡ true → self.new ≡ self.old }
    {
        let (case, count) = self.point.look(label)?;
        if self.journal.is_full() {
            return Err(Fault::JournalFull);
        }
        let size = self.point.size();
        let coins = draw_word(&mut self.source, count).ok_or(Fault::TooFewCoins)?;
        let outcome = self.point.measure(label, sign, coins)?;
        let measurement = Measurement {
            sign,
            size,
            label,
            case,
            outcome,
            count,
            coins,
        };
        // It is lawful, and there is room: the journal takes it.
        self.journal.add(Event::Measurement(measurement)).unwrap();
        Ok(outcome)
    }

    pub fn size(&self) -> u32
        ensures { result ≡ (P.ValueSheet.sheet self.now.point).n }
    {
        self.point.size()
    }

    pub fn width(&self) -> u32
        ensures { result ≡ (P.ValueSheet.sheet self.now.point).width }
    {
        self.point.width()
    }

    // The value of a label, if it has one.
    pub fn value(&self, label: Label) -> Result<Option<bool>, Fault>
        ensures { result ≡ value_answer (P.ValueSheet.sheet self.now.point) label }
    {
        self.point.value(label)
    }

    // How many entries the journal has.
    pub fn entries(&self) -> u32
        ensures count { result ≡ length self.now.journal }
        ensures within { length self.now.journal ≤ 512 }
    {
        self.journal.len()
    }

    // How many coins are still to come.
    pub fn coins_left(&self) -> u64
        ensures { result ≡ length (S.coins self.now.source) }
    {
        self.source.left()
    }

    // Reads the line of an entry into the start of a buffer and answers its length. Entries count from 1.
    pub fn read(&self, entry: u32, out: &mut [u8]) -> Result<usize, Fault>
        ensures line { Read self.now.journal entry out.old out.new result }
        ensures lawful { all_lawful 1 self.now.journal ≡ true }
    {
        self.journal.entry(entry)?.write_line(out)
    }

    // Reads the line of an entry into an answer.
    fn read_line(&self, entry: u32, room: usize) -> Result<Line, Fault>
        ensures { ReadLine self.now.journal entry room result }
    {
        let mut text = [0; LONGEST_LINE];
        let length = self.read(entry, &mut text[..room.min(LONGEST_LINE)])?;
        Ok(Line { text, length })
    }

    // Makes any call.
    pub fn call(&mut self, call: Call) -> Result<Answer, Fault>
        ensures step { Step (seen P.ValueSheet.sheet S.coins self.old) call result (seen P.ValueSheet.sheet S.coins self.new) }
        ensures kept { is_err result ≡ true → self.new ≡ self.old }
    {
        let answer = match call {
            Call::Gate(gate) => {
                self.gate(gate)?;
                Answer::Done
            }
            Call::Conditional {
                outcome,
                gate,
                qubit,
            } => Answer::Conditional(self.conditional(outcome, gate, qubit)?),
            Call::Measure { label, sign } => Answer::Outcome(self.measure(label, sign)?),
            Call::Size => Answer::Size(self.size()),
            Call::Width => Answer::Width(self.width()),
            Call::Value(label) => Answer::Value(self.value(label)?),
            Call::Read { entry, room } => Answer::Line(self.read_line(entry, room)?),
        };
        Ok(answer)
    }
}
