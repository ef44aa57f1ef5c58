// The lines of a circuit's text, one after another.
ghost use Rattle.std.specs.Prelude.{◌≡◌, ◌<◌, length, if◌then◌else◌, Some, None, nat_le};
ghost use Rattle.pauli.specs.Faults.{Answers};
ghost use Rattle.circuit_text.specs.Reading.{OpeningRead, CoinsRead, NextRead};

use crate::line::{Line, Opening};
use crate::read;
use pauli::fault::Fault;
use text::limits::MOST_BYTES;
use text::read::Fields;

// A text, and the place in it where the next line begins.
#[derive(Clone, Copy)]
pub struct Reader<'a> {
    pub fields: Fields<'a>,
}

impl<'a> Reader<'a> {
    // A reader at the start of a text. A text that is too long is refused.
    pub fn over(text: &'a [u8]) -> Result<Reader<'a>, Fault>
        ensures { Answers (if nat_le (length text.now) 32768 then None else Some Fault.BadForm) (λ p. (p.fields.text ≡ text.entry) × (p.fields.at ≡ 0)) result }
    {
        if text.len() > MOST_BYTES {
            return Err(Fault::BadForm);
        }
        let fields = Fields { text, at: 0 };
        Ok(Reader { fields })
    }

    // Whether no line is left.
    fn has_ended(&self) -> bool
        ensures done { result ≡ nat_le (length self.now.fields.text.now) self.now.fields.at }
        ensures fits { length self.now.fields.text.now < 18446744073709551616 }
    {
        self.fields.text.len() <= self.fields.at
    }

    // The first line.
    pub fn opening(&mut self) -> Result<Opening, Fault>
        ensures text { self.new.fields.text ≡ self.old.fields.text }
        ensures line { OpeningRead self.old.fields.text self.old.fields.at result self.new.fields.at }
    {
        if self.has_ended() {
            return Err(Fault::TextEnded);
        }
        read::opening(&mut self.fields)
    }

    // The second line: the coins, as the part of the text that they are. (It differs from `opening` in what is read; a closure for that
    // would be longer than the lines that it saves.)
    pub fn coins(&mut self) -> Result<&'a [u8], Fault>
        ensures text { self.new.fields.text ≡ self.old.fields.text }
        ensures line { CoinsRead self.old.fields.text self.old.fields.at result self.new.fields.at }
    {
        if self.has_ended() {
            return Err(Fault::TextEnded);
        }
        read::coins(&mut self.fields)
    }

    // The next line after those two, or none at the end of the text. The text's length is a usize, so that its lines can be counted.
    pub fn next(&mut self) -> Result<Option<Line<'a>>, Fault>
        ensures text { self.new.fields.text ≡ self.old.fields.text }
        ensures fits { length self.old.fields.text.now < 18446744073709551616 }
        ensures line { NextRead self.old.fields.text self.old.fields.at result self.new.fields.at }
    {
        if self.has_ended() {
            return Ok(None);
        }
        read::line(&mut self.fields).map(Some)
    }
}
