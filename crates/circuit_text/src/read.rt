// Readers of whole lines: each answers what the line says and moves to the next, or refuses it and stays.
// Each compares the kind of its line itself: a helper, with its contract, would be longer than what it saves.
ghost use Rattle.text.specs.Reading.{Reads};
ghost use Rattle.circuit_text.specs.Lines.{opening_text, OpeningLaw};
ghost use Rattle.circuit_text.specs.Reading.{CoinsAt, LineAt};

use crate::line::{Line, Opening};
use pauli::fault::Fault;
use text::end::End;
use text::read::Fields;

// The most coins that a circuit brings.
const MOST_COINS: usize = 4096;

// Line 1, as `Q,3,2`.
pub(crate) fn opening(line: &mut Fields) -> Result<Opening, Fault>
    ensures { Reads opening_text OpeningLaw 10 line.old result line.new }
{
    let mut fields = *line;
    if fields.byte(End::Comma)? != b'Q' {
        return Err(Fault::BadForm);
    }
    let size = fields.number(End::Comma)?;
    let width = fields.number(End::LineFeed)?;
    *line = fields;
    Ok(Opening { size, width })
}

// Line 2, as `B,1011`: the coins, as the part of the text that they are.
pub(crate) fn coins<'a>(line: &mut Fields<'a>) -> Result<&'a [u8], Fault>
    ensures { CoinsAt line.old result line.new }
{
    let mut fields = *line;
    if fields.byte(End::Comma)? != b'B' {
        return Err(Fault::BadForm);
    }
    let coins = fields.coins(End::LineFeed)?;
    if coins.len() > MOST_COINS {
        return Err(Fault::BadForm);
    }
    *line = fields;
    Ok(coins)
}

// Any later line.
pub(crate) fn line<'a>(line: &mut Fields<'a>) -> Result<Line<'a>, Fault>
    ensures { LineAt line.old result line.new }
{
    let mut fields = *line;
    let said = match fields.byte(End::Comma)? {
        b'G' => Line::Gate(fields.gate(End::LineFeed)?),
        b'M' => {
            let sign = fields.sign(End::Comma)?;
            let letters = fields.letters(End::LineFeed)?;
            Line::Measure { sign, letters }
        }
        b'F' => {
            let outcome = fields.number(End::Comma)?;
            let (gate, qubit) = fields.one_qubit(End::LineFeed)?;
            Line::Conditional {
                outcome,
                gate,
                qubit,
            }
        }
        _ => return Err(Fault::BadForm),
    };
    *line = fields;
    Ok(said)
}
