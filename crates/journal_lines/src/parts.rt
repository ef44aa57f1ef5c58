// Readers of what stands behind an entry's number in its line. Where one refuses, its place may be anywhere in the line.
ghost use Rattle.std.specs.Prelude.{◌≡◌, ◌≤◌, length};
ghost use Rattle.text.specs.Reading.{Takes};
ghost use Rattle.text.specs.Texts.{Any, coin_text};
ghost use Rattle.journal_lines.specs.Parts.{case_text, bit_text, sized_text, Sized, Bits, word, drawn_text, Drawn, measured_text, Measured, event_text, Readable};

use crate::event::{Event, Measurement};
use pauli::case::Case;
use pauli::fault::Fault;
use pauli::label::Label;
use text::end::End;
use text::read::{Fields, are_coins};

fn case(fields: &mut Fields) -> Result<Case, Fault>
    ensures { Takes case_text Any 44 fields.old result fields.new }
{
    Case::try_from(fields.number(End::Comma)?)
}

// An outcome. Its digits are the bit itself, and no code for something else.
fn bit(fields: &mut Fields) -> Result<bool, Fault>
    ensures { Takes bit_text Any 44 fields.old result fields.new }
{
    match fields.number(End::Comma)? {
        0 => Ok(false),
        1 => Ok(true),
        _ => Err(Fault::BadForm),
    }
}

// One to 64 letters: how many, and their label. (`carry` reads the same, but refuses more letters by the number of bad sizes.)
fn sized(fields: &mut Fields) -> Result<(u32, Label), Fault>
    ensures { Takes sized_text Sized 44 fields.old result fields.new }
{
    let letters = fields.letters(End::Comma)?;
    if letters.len() > 64 {
        return Err(Fault::BadForm);
    }
    let size = letters.len() as u32;
    let label = Label::from_letters(size, letters)?;
    Ok((size, label))
}

// The coins that these digits are, the first in the lowest bit. By recursion, since the closure of a `fold` cannot see that
// no sum is too large.
#[tactic(auto, using(crate::proofs::Coins::word_room))]
fn word_of(digits: &[u8]) -> u64
    requires { length digits.now ≤ 64 }
    ensures { result ≡ word digits.now }
{
    match digits {
        [] => 0,
        [first, rest @ ..] => 2 * word_of(rest) + u64::from(*first == b'1'),
    }
}

// Just `count` coins, or `-` for none.
fn coins(fields: &mut Fields, count: u32) -> Result<u64, Fault>
    requires { count ≤ 64 }
    ensures { Takes (coin_text count) (Bits count) 10 fields.old result fields.new }
{
    if count == 0 {
        return match fields.byte(End::LineFeed)? {
            b'-' => Ok(0),
            _ => Err(Fault::BadForm),
        };
    }
    let digits = fields.bytes(count as usize, End::LineFeed)?;
    if !are_coins(digits) {
        return Err(Fault::BadForm);
    }
    Ok(word_of(digits))
}

// A count of coins, and the coins.
fn drawn(fields: &mut Fields) -> Result<(u32, u64), Fault>
    ensures { Takes drawn_text Drawn 10 fields.old result fields.new }
{
    let count = fields.number(End::Comma)?;
    if count > 64 {
        return Err(Fault::BadForm);
    }
    let word = coins(fields, count)?;
    Ok((count, word))
}

// A measurement's sign, letters, case, outcome, count of coins and coins.
fn measurement(fields: &mut Fields) -> Result<Measurement, Fault>
    ensures { Takes measured_text Measured 10 fields.old result fields.new }
{
    let sign = fields.sign(End::Comma)?;
    let (size, label) = sized(fields)?;
    let case = case(fields)?;
    let outcome = bit(fields)?;
    let (count, coins) = drawn(fields)?;
    Ok(Measurement {
        sign,
        size,
        label,
        case,
        outcome,
        count,
        coins,
    })
}

// All that stands behind an entry's number.
pub(crate) fn event(fields: &mut Fields) -> Result<Event, Fault>
    ensures { Takes event_text Readable 10 fields.old result fields.new }
{
    let kind = fields.byte(End::Comma)?;
    match kind {
        b'G' => Ok(Event::Gate(fields.gate(End::LineFeed)?)),
        b'D' | b'P' => {
            let outcome = fields.number(End::Comma)?;
            let (gate, qubit) = fields.one_qubit(End::LineFeed)?;
            Ok(Event::Conditional {
                done: kind == b'D',
                outcome,
                gate,
                qubit,
            })
        }
        b'M' => Ok(Event::Measurement(measurement(fields)?)),
        _ => Err(Fault::BadForm),
    }
}
