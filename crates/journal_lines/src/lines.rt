// The one line of an entry, written and read.
ghost use Rattle.std.specs.Prelude.{◌≡◌, ℕ, ◌≤◌, length, IfOk, IfErr, Ok};
ghost use Rattle.text.specs.Lines.{Filled};
ghost use Rattle.journal_lines.specs.Lines.{done_mark};
ghost use Rattle.journal_lines.specs.Entries.{entry_line, ReadsEntry, Longest};

use crate::entry::Entry;
use crate::event::Event;
use crate::parts;
use pauli::fault::Fault;
use pauli::gate::Gate;
use text::end::End;
use text::read::Fields;
use text::write;
use text::write::Field;

// How many bytes the longest line has: 64 letters in Case 3, with 63 coins.
pub const LONGEST_LINE: usize = 144;

// The mark of a conditional gate.
fn done_mark(done: bool) -> u8
    ensures { result ≡ done_mark done }
{
    if done { b'D' } else { b'P' }
}

impl Entry {
    // Writes the entry's line into the start of a buffer and answers its length; the rest of the buffer stays.
    // A buffer that is too short stays as it is.
    pub fn write_line(&self, out: &mut [u8]) -> Result<usize, Fault>
        ensures { Filled (entry_line self.now) out.old out.new result }
    {
        let number = Field::Number(self.number());
        match self.event() {
            Event::Gate(gate) => write::line(&[number, Field::Mark(b'G'), Field::Gate(gate)], out),
            Event::Conditional {
                done,
                outcome,
                gate,
                qubit,
            } => {
                let mark = Field::Mark(done_mark(done));
                let gate = Field::Gate(Gate::One { gate, qubit });
                write::line(&[number, mark, Field::Number(outcome), gate], out)
            }
            Event::Measurement(m) => {
                let letters = Field::Letters {
                    size: m.size,
                    label: m.label,
                };
                let case = Field::Number(m.case.number());
                let outcome = Field::Number(u32::from(m.outcome));
                let count = Field::Number(m.count);
                let coins = Field::Coins {
                    count: m.count,
                    word: m.coins,
                };
                write::line(
                    &[
                        number,
                        Field::Mark(b'M'),
                        Field::Sign(m.sign),
                        letters,
                        case,
                        outcome,
                        count,
                        coins,
                    ],
                    out,
                )
            }
        }
    }

    // The entry whose line begins at the place, and the place moves past the line. Where no entry's line begins, it stays.
    pub fn read(fields: &mut Fields) -> Result<Entry, Fault>
        ensures { ReadsEntry fields.old result fields.new }
    {
        let mut line = *fields;
        let number = line.number(End::Comma)?;
        let event = parts::event(&mut line)?;
        let entry = Entry::new(number, event)?;
        *fields = line;
        Ok(entry)
    }

    // The entry whose line a text is. Every text that is no lawful entry's line is refused.
    pub fn read_line(text: &[u8]) -> Result<Entry, Fault>
        ensures line { IfOk result (λ e. text.now ≡ entry_line e) }
        ensures back { (e : Entry) → text.now ≡ entry_line e → result ≡ Ok e }
        ensures fault { IfErr result (λ f. f ≡ Fault.BadForm) }
    {
        let mut fields = Fields { text, at: 0 };
        let entry = Entry::read(&mut fields)?;
        if fields.at < text.len() {
            return Err(Fault::BadForm);
        }
        Ok(entry)
    }
}

// Two entries never share a line.
pub fn lines_tell_entries()
    ensures { (e f : Entry) → entry_line e ≡ entry_line f → e ≡ f }
{}

// A buffer of this many bytes has room for every line. (A constant cannot promise it.)
pub fn longest_line() -> usize
    ensures is { result ≡ 144 }
    ensures longest { Longest result }
{
    LONGEST_LINE
}
