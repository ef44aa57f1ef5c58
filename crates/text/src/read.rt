// The fields of a text, read exactly, one after another.
ghost use Rattle.std.specs.Prelude.{◌≡◌, ℕ, ◌+◌, ◌<◌, ◌==◌, ◌⊎◌, position, decimal, not, MatchResult};
ghost use Rattle.pauli.specs.Letters.{is_letter};
ghost use Rattle.std.specs.List.{list_all};
ghost use Rattle.text.specs.Ends.{end_byte};
ghost use Rattle.text.specs.Reading.{Reads, Shows, Stands};
ghost use Rattle.text.specs.Texts.{Any, one, num, Short, digits, sign_text, turn_text, Turn, gate_text, Gated, same, Long, Letters, some_first, Coins, is_coin, Spelled, NumberFirst};

use crate::end::End;
use pauli::fault::Fault;
use pauli::gate::{Gate, OneQubit};
use pauli::letter::is_letter;

// A text, and the place in it where the next field begins. A place past the end is fine: nothing stands there.
#[derive(Clone, Copy, PartialEq, Eq, Debug)]
pub struct Fields<'a> {
    pub text: &'a [u8],
    pub at: usize,
}

// A reader is told what has to end the field. It answers the field's value and moves to the place after it, or refuses and stays. It looks
// at no more bytes than the field can have, and its end. (The hints on inlining let a place stay in a register: reading is what `carry` spends
// most time on.)
impl<'a> Fields<'a> {
    // What stands from the place on.
    fn rest(&self) -> &'a [u8]
        ensures { Stands self.now result }
    {
        // Not by `get(self.at..)`, whose contract doesn't say where the part lies.
        if self.at < self.text.len() {
            &self.text[self.at..]
        } else {
            &[]
        }
    }

    // Any one byte.
    #[inline(always)]
    pub fn byte(&mut self, end: End) -> Result<u8, Fault>
        ensures { Reads one Any (end_byte end) self.old result self.new }
    {
        match *self.rest() {
            [byte, stop, ..] if stop == end.byte() => {
                self.at += 2;
                Ok(byte)
            }
            _ => Err(Fault::BadForm),
        }
    }

    // The next bytes, so many of them, whatever they are.
    pub fn bytes(&mut self, count: usize, end: End) -> Result<&'a [u8], Fault>
        ensures { Shows same (Long count) (end_byte end) self.old result self.new }
    {
        let rest = self.rest();
        match rest.get(count) {
            Some(stop) if *stop == end.byte() => {
                self.at += count + 1;
                Ok(&rest[..count])
            }
            _ => Err(Fault::BadForm),
        }
    }

    // A number of one to three digits, with no leading zero.
    #[inline(always)]
    pub fn number(&mut self, end: End) -> Result<u32, Fault>
        ensures { Reads num Short (end_byte end) self.old result self.new }
    {
        let (number, count) = number_first(self.rest(), end)?;
        self.at += count + 1;
        Ok(number)
    }

    // A sign: `+`, or `-` for true.
    pub fn sign(&mut self, end: End) -> Result<bool, Fault>
        ensures { Reads sign_text Any (end_byte end) self.old result self.new }
    {
        let mut fields = *self;
        let sign = match fields.byte(end)? {
            b'+' => false,
            b'-' => true,
            _ => return Err(Fault::BadForm),
        };
        *self = fields;
        Ok(sign)
    }

    // A one-qubit gate and its qubit, as `H,1`. The qubit is any number of the form.
    pub fn one_qubit(&mut self, end: End) -> Result<(OneQubit, u32), Fault>
        ensures { Reads turn_text Turn (end_byte end) self.old result self.new }
    {
        let mut fields = *self;
        let gate = OneQubit::try_from(fields.byte(End::Comma)?)?;
        let qubit = fields.number(end)?;
        *self = fields;
        Ok((gate, qubit))
    }

    // A gate, as `H,1` or `CX,1,2`. Its qubits are any numbers of the form.
    pub fn gate(&mut self, end: End) -> Result<Gate, Fault>
        ensures { Reads gate_text Gated (end_byte end) self.old result self.new }
    {
        if let [b'C', b'X', b',', ..] = self.rest() {
            let mut fields = *self;
            fields.at += 3;
            let control = fields.number(End::Comma)?;
            let target = fields.number(end)?;
            *self = fields;
            return Ok(Gate::Cx { control, target });
        }
        let (gate, qubit) = self.one_qubit(end)?;
        Ok(Gate::One { gate, qubit })
    }

    // One or more of the letters I, X, Y and Z, as the part of the text that they are.
    pub fn letters(&mut self, end: End) -> Result<&'a [u8], Fault>
        ensures { Shows same Letters (end_byte end) self.old result self.new }
    {
        match letters_first(self.rest()) {
            None => Err(Fault::BadForm),
            Some(count) => self.bytes(count, end),
        }
    }

    // Any number of coins, digits 0 and 1, as the part of the text that they are. (It differs from `letters` in what stands first; a closure for
    // that would be longer than the lines that it saves.)
    pub fn coins(&mut self, end: End) -> Result<&'a [u8], Fault>
        ensures { Shows same Coins (end_byte end) self.old result self.new }
    {
        match coins_first(self.rest()) {
            None => Err(Fault::BadForm),
            Some(count) => self.bytes(count, end),
        }
    }
}

// Where the letters that stand first end, if something stands after them.
fn letters_end(bytes: &[u8]) -> Option<usize>
    ensures { result ≡ position (λ b. not (is_letter b)) bytes.now }
{
    bytes.iter().position(|b| !is_letter(*b))
}

// How many letters stand first, if there are any and something stands after them.
fn letters_first(bytes: &[u8]) -> Option<usize>
    ensures { result ≡ some_first (position (λ b. not (is_letter b)) bytes.now) }
{
    match letters_end(bytes) {
        Some(0) => None,
        count => count,
    }
}

fn is_coin(byte: u8) -> bool
    ensures { result ≡ is_coin byte }
{
    matches!(byte, b'0' | b'1')
}

// Whether each byte of a text is a coin's digit.
pub fn are_coins(text: &[u8]) -> bool
    ensures { result ≡ list_all is_coin text.now }
{
    text.iter().all(|byte| is_coin(*byte))
}

// How many coins stand first, if something stands after them.
fn coins_first(bytes: &[u8]) -> Option<usize>
    ensures { result ≡ position (λ b. not (is_coin b)) bytes.now }
{
    bytes.iter().position(|b| !is_coin(*b))
}

// Where such a byte stands first.
fn first(bytes: &[u8], byte: u8) -> Option<usize>
    ensures { result ≡ position (λ b. b == byte) bytes.now }
{
    bytes.iter().position(|b| *b == byte)
}

// The number that is written so, if a field takes it.
#[tactic(auto, using(crate::proofs::Numbers::spells))]
fn number_of(digits: &[u8]) -> Result<u32, Fault>
    ensures { Spelled num Short digits.now result }
{
    match *digits {
        [a] => digit(a),
        [a, b] if a != b'0' => Ok(10 * digit(a)? + digit(b)?),
        [a, b, c] if a != b'0' => Ok(100 * digit(a)? + 10 * digit(b)? + digit(c)?),
        _ => Err(Fault::BadForm),
    }
}

// The number that stands first, with its end after it, and how many digits it has. The end is looked for no further than it can stand.
#[inline(never)]
fn number_first(rest: &[u8], end: End) -> Result<(u32, usize), Fault>
    ensures { NumberFirst rest.now (end_byte end) result }
{
    let count = first(&rest[..rest.len().min(4)], end.byte()).ok_or(Fault::BadForm)?;
    let number = number_of(&rest[..count])?;
    Ok((number, count))
}

// The digit of a byte.
fn digit(b: u8) -> Result<u32, Fault>
    ensures { MatchResult result (λ d. (d < 10) × (b ≡ 48 + d)) (λ f. (f ≡ Fault.BadForm) × ((b < 48) ⊎ (57 < b))) }
{
    match b {
        b'0'..=b'9' => Ok(u32::from(b - b'0')),
        _ => Err(Fault::BadForm),
    }
}

// A number's text is what `{n}` prints; below 1000 it is one to three digits, the first of more than one not 0.
pub fn numbers_are_decimal()
    ensures { ((n : ℕ) → num n ≡ decimal n) × ((n : ℕ) → n < 1000 → num n ≡ digits n) }
{}
