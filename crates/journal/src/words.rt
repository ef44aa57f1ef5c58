// Entries in plain words, for readers of an archived journal.
ghost use Rattle.std.specs.Prelude.{◌≡◌, [], ◌∷◌, Some};
ghost use Rattle.std.specs.Fmt.{WritesOnOk};
ghost use Rattle.pauli.specs.Labels.{label_text};
ghost use Rattle.text.specs.Texts.{sign_byte};
ghost use Rattle.journal.specs.Words.{gate_name, digit_word, case_words, coin_words, measured_words, event_words, entry_words};

use journal_lines::entry::Entry;
use journal_lines::event::{Event, Measurement};
use pauli::bits::bit;
use pauli::case::Case;
use pauli::gate::Gate;
use std::fmt;

// What the case says of the label.
fn case_words(case: Case) -> &'static str
    ensures { result.now ≡ case_words case }
{
    match case {
        Case::One => "a valued label of the centre (Case 1)",
        Case::Two => "a valued label outside the centre (Case 2)",
        Case::Three => "an unvalued label that commutes with the centre (Case 3)",
        Case::Four => "an unvalued label that does not commute with the centre (Case 4)",
    }
}

// The letters of a measured label.
#[derive(Clone, Copy)]
struct Letters<'a>(&'a Measurement);

impl<'a> fmt::Display for Letters<'a> {
    ghost output = { λ l. Some (label_text l.0.now.size l.0.now.label) };

    fn fmt<W: fmt::Write>(&self, f: &mut fmt::Formatter<W>) -> fmt::Result {
        // `i` is the place of a letter in the label, and not one in a list.
        for i in 0..self.0.size {
            f.write_str(self.0.label.at(i).name())?;
        }
        Ok(())
    }
}

fn digit(bit: bool) -> &'static str
    ensures { result.now ≡ digit_word bit }
{
    if bit { "1" } else { "0" }
}

// The coins that a measurement drew, first coin first. A digit is a text of its own, which takes less time than a number.
#[derive(Clone, Copy)]
struct Coins<'a>(&'a Measurement);

impl<'a> fmt::Display for Coins<'a> {
    ghost output = { λ c. Some (coin_words c.0.now.count c.0.now.coins) };

    fn fmt<W: fmt::Write>(&self, f: &mut fmt::Formatter<W>) -> fmt::Result {
        if self.0.count == 0 {
            return f.write_str("none");
        }
        // `i` is the place of a coin in the word.
        for i in 0..self.0.count {
            f.write_str(digit(bit(self.0.coins, i)))?;
        }
        Ok(())
    }
}

fn write_measured<W: fmt::Write>(f: &mut fmt::Formatter<W>, m: &Measurement) -> fmt::Result
    ensures { WritesOnOk W.write_str_gives f.old result (measured_words m.now) f.new }
{
    let sign = if m.sign { "-" } else { "+" };
    let letters = Letters(m);
    let case = case_words(m.case);
    let outcome = u32::from(m.outcome);
    let coins = Coins(m);
    write!(
        f,
        "{sign}{letters} was measured, {case}; the outcome was {outcome}; coins drawn: {coins}."
    )
}

fn write_event<W: fmt::Write>(f: &mut fmt::Formatter<W>, event: Event) -> fmt::Result
    ensures { WritesOnOk W.write_str_gives f.old result (event_words event) f.new }
{
    match event {
        Event::Gate(Gate::One { gate, qubit }) => {
            write!(f, "the gate {} acted on qubit {qubit}.", gate.name())
        }
        Event::Gate(Gate::Cx { control, target }) => write!(
            f,
            "the gate CX acted on qubit {target} under the control of qubit {control}."
        ),
        Event::Conditional {
            done,
            outcome,
            gate,
            qubit,
        } => {
            let name = gate.name();
            if done {
                write!(
                    f,
                    "outcome number {outcome} was 1, so the gate {name} acted on qubit {qubit}."
                )
            } else {
                write!(
                    f,
                    "outcome number {outcome} was 0, so the gate {name} on qubit {qubit} was passed over."
                )
            }
        }
        Event::Measurement(m) => write_measured(f, &m),
    }
}

// An entry that prints as one line of plain words.
#[derive(Clone, Copy)]
pub struct Words(pub Entry);

impl fmt::Display for Words {
    ghost output = { λ w. Some (entry_words w.0) };

    fn fmt<W: fmt::Write>(&self, f: &mut fmt::Formatter<W>) -> fmt::Result {
        write!(f, "Entry {}: ", self.0.number())?;
        write_event(f, self.0.event())
    }
}
