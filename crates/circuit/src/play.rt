// Plays a circuit's lines to a session.
ghost use Rattle.std.specs.Prelude.{◌≡◌, true, drop, is_err};
ghost use Rattle.circuit_text.specs.Lines.{said};
ghost use Rattle.session.specs.Seen.{seen};
ghost use Rattle.circuit.specs.Lines.{Performed, Played};

use circuit_text::line::Line;
use circuit_text::reader::Reader;
use coins::source::CoinSource;
use pauli::fault::Fault;
use pauli::label::Label;
use phase::point::PhasePoint;
use session::session::Session;
use text::stop::{Stop, at};

// Makes the call that a line asks for.
fn perform<P: PhasePoint, S: CoinSource>(
    session: &mut Session<P, S>,
    line: Line,
) -> Result<(), Fault>
    ensures done { Performed (seen P.ValueSheet.sheet S.coins session.old) (said line.entry) result (seen P.ValueSheet.sheet S.coins session.new) }
    ensures kept { is_err result ≡ true → session.new ≡ session.old }
{
    match line {
        Line::Gate(gate) => session.gate(gate),
        Line::Measure { sign, letters } => {
            let label = Label::from_letters(session.size(), letters)?;
            session.measure(label, sign)?;
            Ok(())
        }
        Line::Conditional {
            outcome,
            gate,
            qubit,
        } => {
            session.conditional(outcome, gate, qubit)?;
            Ok(())
        }
    }
}

// Plays the lines that are left, line 3 being the next, up to the text's end or the first line refused.
pub fn play<P: PhasePoint, S: CoinSource>(
    session: &mut Session<P, S>,
    reader: &mut Reader,
) -> Result<(), Stop>
    ensures { Played (seen P.ValueSheet.sheet S.coins session.old) 3 (drop reader.old.fields.at reader.old.fields.text.now) result (seen P.ValueSheet.sheet S.coins session.new) }
{
    let mut line = 3;
    // The reader moves on by itself; `line` counts for the refusals.
    while let Some(next) = at(line, reader.next())? {
        at(line, perform(session, next))?;
        line += 1;
    }
    Ok(())
}
