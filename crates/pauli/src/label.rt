// Pauli labels: two words of up to 64 bits, one bit of each to a qubit. Qubit q owns the bit of value 2^(q-1).
ghost use Rattle.std.specs.Prelude.{◌≡◌, ℕ, ◌-◌, ◌<◌, ◌≤◌, true, false, ◌++◌, length, drop, is_err, if◌then◌else◌, Some, None, bit_and, count_ones};
ghost use Rattle.pauli.specs.Bits.{odd};
ghost use Rattle.pauli.specs.Faults.{Answers};
ghost use Rattle.pauli.specs.Letters.{all_letters};
ghost use Rattle.pauli.specs.Labels.{plus, pairing, beta, fits, Within, at, product_sign, letter_fault, label_text, reading_fault, writing_fault};

use crate::bits::{below, bit, bit_within};
use crate::fault::Fault;
use crate::letter::{Letter, are_letters};
use crate::qubits::{is_size, on_board};

#[derive(Clone, Copy, PartialEq, Eq, Debug)]
pub struct Label {
    pub x: u64,
    pub z: u64,
}

// How many bits two words have in common.
fn common(a: u64, b: u64) -> u32
    ensures is { result ≡ count_ones (bit_and a b) }
    ensures small { result ≤ 64 }
{
    (a & b).count_ones()
}

impl Label {
    // The product of two labels, letter by letter and without its phase.
    pub fn product(self, other: Label) -> Label
        ensures { result ≡ plus self other }
    {
        Label {
            x: self.x ^ other.x,
            z: self.z ^ other.z,
        }
    }

    // Two labels commute or anticommute.
    pub fn anticommutes(self, other: Label) -> bool
        ensures { result ≡ odd (pairing self other) }
    {
        (common(self.x, other.z) + common(self.z, other.x)) % 2 == 1
    }

    // The sign rule, as a number of quarter turns halved: the sign where the labels commute.
    pub(crate) fn half_phase(self, other: Label) -> bool
        ensures { result ≡ odd (beta self other) }
    {
        let sum = self.product(other);
        let ys = common(self.x, self.z) + common(other.x, other.z);
        let quarters = (ys + 2 * common(self.z, other.x) + 3 * common(sum.x, sum.z)) % 4;
        quarters / 2 == 1
    }

    // The sign of the product of two commuting labels (true for minus); anticommuting ones have none.
    pub fn product_sign(self, other: Label) -> Option<bool>
        ensures { result ≡ product_sign self other }
    {
        if self.anticommutes(other) {
            None
        } else {
            Some(self.half_phase(other))
        }
    }

    // Whether the label has no letter beyond qubit n.
    pub fn fits(self, n: u32) -> bool
        ensures { result ≡ fits n self }
    {
        below(self.x, n) && below(self.z, n)
    }

    // The letter at the qubit that owns the bit of value 2^i; beyond the last such qubit it is I.
    pub fn at(self, i: u32) -> Letter
        ensures { result ≡ at self i }
    {
        Letter::from_bits(bit(self.x, i), bit(self.z, i))
    }

    // The same where there is such a qubit: gates and texts ask for a letter so often that the test would be felt.
    pub(crate) fn at_within(self, i: u32) -> Letter
        requires { i < 64 }
        ensures { result ≡ at self i }
    {
        Letter::from_bits(bit_within(self.x, i), bit_within(self.z, i))
    }

    // The letter at a qubit.
    pub fn letter(self, qubit: u32) -> Result<Letter, Fault>
        ensures { Answers (letter_fault qubit) (λ l. l ≡ at self (qubit - 1)) result }
    {
        if !on_board(64, qubit) {
            return Err(Fault::BadQubit);
        }
        Ok(self.at(qubit - 1))
    }

    // The label of n qubits that a text of n letters names, qubit 1 first.
    pub fn from_letters(n: u32, text: &[u8]) -> Result<Label, Fault>
        ensures { Answers (reading_fault n text.now) (λ a. Within n a × (text.now ≡ label_text n a)) result }
    {
        if !are_letters(text) {
            return Err(Fault::BadForm);
        }
        if !is_size(n) {
            return Err(Fault::BadSize);
        }
        if text.len() != n as usize {
            return Err(Fault::BadLabel);
        }
        gathered(text)
    }

    // Writes the n letters of the label into the start of a buffer, and answers how many bytes they are.
    pub fn write_letters(self, n: u32, out: &mut [u8]) -> Result<usize, Fault>
        ensures done { Answers (writing_fault n self (length out.old)) (λ len. (len ≡ n) × (out.new ≡ label_text n self ++ drop n out.old)) result }
        ensures kept { is_err result ≡ true → out.new ≡ out.old }
    {
        if !is_size(n) {
            return Err(Fault::BadSize);
        }
        if !self.fits(n) {
            return Err(Fault::BadLabel);
        }
        let len = n as usize;
        if out.len() < len {
            return Err(Fault::ShortBuffer);
        }
        self.fill(&mut out[..len]);
        Ok(len)
    }

    // Writes as many letters as the text is long.
    fn fill(self, text: &mut [u8])
        requires { length text.old ≤ 64 }
        ensures { text.new ≡ label_text (length text.old) self }
    {
        for (i, byte) in text.iter_mut().enumerate() {
            *byte = self.at_within(i as u32).code();
        }
    }
}

// The label that a text of letters names: the last letter first, so that each new bit enters below the others.
fn gathered(text: &[u8]) -> Result<Label, Fault>
    requires { length text.now ≤ 64 }
    ensures { Answers (if all_letters text.now then None else Some Fault.BadForm) (λ a. Within (length text.now) a × (text.now ≡ label_text (length text.now) a)) result }
{
    let mut label = Label { x: 0, z: 0 };
    for byte in text.iter().rev() {
        let (x, z) = Letter::try_from(*byte)?.bits();
        label = Label {
            x: 2 * label.x + u64::from(x),
            z: 2 * label.z + u64::from(z),
        };
    }
    Ok(label)
}
