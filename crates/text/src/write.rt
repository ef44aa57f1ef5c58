// The writer of lines: it looks whether the buffer has room for the whole line, and only then writes.
ghost use Rattle.std.specs.Prelude.{◌≡◌, ℕ, ◌≤◌, [], ◌∷◌, length, nat_le};
ghost use Rattle.pauli.specs.Labels.{label_text};
ghost use Rattle.text.specs.Texts.{num, sign_byte, gate_text, coins};
ghost use Rattle.text.specs.Lines.{field_text, line_of, Filled};
ghost use Rattle.text.specs.Writing.{Room, Writes};

use crate::end::End;
use pauli::bits::bit;
use pauli::fault::Fault;
use pauli::gate::Gate;
use pauli::label::Label;

// A field of a line.
#[derive(Clone, Copy, PartialEq, Eq, Debug)]
pub enum Field {
    Number(u32),
    // One character, by its ASCII code.
    Mark(u8),
    // `+`, or `-` for true.
    Sign(bool),
    Gate(Gate),
    // The letters of a label, for the first `size` qubits.
    Letters { size: u32, label: Label },
    // The lowest `count` bits of a word, the first coin lowest.
    Coins { count: u32, word: u64 },
}

// How many digits a number has. By recursion, as it is written: the first digits are known last.
fn number_len(n: u32) -> usize
    ensures is { result ≡ length (num n) }
    ensures few { result ≤ 10 }
{
    if n < 10 { 1 } else { number_len(n / 10) + 1 }
}

fn gate_len(gate: Gate) -> usize
    ensures is { result ≡ length (gate_text gate) }
    ensures few { result ≤ 24 }
{
    match gate {
        Gate::One { gate: _, qubit } => 2 + number_len(qubit),
        Gate::Cx { control, target } => 4 + number_len(control) + number_len(target),
    }
}

// By kind, as the field is written: its length has to be known before, so that a buffer that is too short stays as it is.
fn field_len(field: Field) -> usize
    ensures is { result ≡ length (field_text field) }
    ensures few { result ≤ 4294967295 }
{
    match field {
        Field::Number(n) => number_len(n),
        Field::Mark(_) | Field::Sign(_) => 1,
        Field::Gate(gate) => gate_len(gate),
        Field::Letters { size, label: _ } => size as usize,
        Field::Coins { count: 0, word: _ } => 1,
        Field::Coins { count, word: _ } => count as usize,
    }
}

// Whether the line of some fields has at most `room` bytes.
fn fits(fields: &[Field], room: usize) -> bool
    ensures { result ≡ nat_le (length (line_of fields.now)) room }
{
    let mut left = room;
    for field in fields {
        let len = field_len(*field);
        if left <= len {
            return false;
        }
        left -= len + 1;
    }
    true
}

fn sign_byte(sign: bool) -> u8
    ensures { result ≡ sign_byte sign }
{
    if sign { b'-' } else { b'+' }
}

// A buffer, and the place in it where the next byte goes.
#[derive(Drop)]
struct Writer<'a> {
    out: &'a mut [u8],
    at: usize,
}

impl Writer<'_> {
    fn put(&mut self, byte: u8)
        requires { Room self.old 1 }
        ensures { Writes self.old (byte ∷ []) self.new }
    {
        self.out[self.at] = byte;
        self.at += 1;
    }

    fn put_number(&mut self, n: u32)
        requires { Room self.old (length (num n)) }
        ensures { Writes self.old (num n) self.new }
    {
        if n >= 10 {
            self.put_number(n / 10);
        }
        self.put(b'0' + (n % 10) as u8);
    }

    // A comma and a number.
    fn put_next(&mut self, n: u32)
        requires { Room self.old (length (44 ∷ num n)) }
        ensures { Writes self.old (44 ∷ num n) self.new }
    {
        self.put(b',');
        self.put_number(n);
    }

    fn put_gate(&mut self, gate: Gate)
        requires { Room self.old (length (gate_text gate)) }
        ensures { Writes self.old (gate_text gate) self.new }
    {
        match gate {
            Gate::One { gate, qubit } => {
                self.put(gate.code());
                self.put_next(qubit);
            }
            Gate::Cx { control, target } => {
                self.put(b'C');
                self.put(b'X');
                self.put_next(control);
                self.put_next(target);
            }
        }
    }

    fn put_letters(&mut self, size: u32, label: Label)
        requires { Room self.old size }
        ensures { Writes self.old (label_text size label) self.new }
    {
        // `i` is the place of a letter in the label, and not one in a list.
        for i in 0..size {
            self.put(label.at(i).code());
        }
    }

    fn put_coins(&mut self, count: u32, word: u64)
        requires { Room self.old count }
        ensures { Writes self.old (coins count word) self.new }
    {
        // `i` is the place of a coin in the word.
        for i in 0..count {
            self.put(b'0' + u8::from(bit(word, i)));
        }
    }

    fn put_field(&mut self, field: Field)
        requires { Room self.old (length (field_text field)) }
        ensures { Writes self.old (field_text field) self.new }
    {
        match field {
            Field::Number(n) => self.put_number(n),
            Field::Mark(byte) => self.put(byte),
            Field::Sign(sign) => self.put(sign_byte(sign)),
            Field::Gate(gate) => self.put_gate(gate),
            Field::Letters { size, label } => self.put_letters(size, label),
            Field::Coins { count: 0, word: _ } => self.put(b'-'),
            Field::Coins { count, word } => self.put_coins(count, word),
        }
    }
}

// Writes the line of some fields into the start of the buffer and answers its length; the rest of the buffer stays.
// A buffer that is too short stays as it is.
pub fn line(fields: &[Field], out: &mut [u8]) -> Result<usize, Fault>
    ensures { Filled (line_of fields.now) out.old out.new result }
{
    if !fits(fields, out.len()) {
        return Err(Fault::ShortBuffer);
    }
    let mut writer = Writer { out, at: 0 };
    for (i, field) in fields.iter().enumerate() {
        writer.put_field(*field);
        let end = if i + 1 < fields.len() {
            End::Comma
        } else {
            End::LineFeed
        };
        writer.put(end.byte());
    }
    Ok(writer.at)
}
