// The four Pauli letters.
ghost use Rattle.std.specs.Prelude.{◌≡◌, [], ◌∷◌};
ghost use Rattle.pauli.specs.Letters.{letter_of, x_of, z_of, code_of, bits_of, is_letter, all_letters};
ghost use Rattle.pauli.specs.Names.{Named};

use crate::fault::Fault;

#[derive(Clone, Copy, PartialEq, Eq, Debug)]
pub enum Letter {
    I,
    X,
    Y,
    Z,
}

impl Letter {
    // Bits, names and codes are tables of the letters themselves, and a match says each most plainly.

    // The letter of the bits x and z.
    pub(crate) fn from_bits(x: bool, z: bool) -> Letter
        ensures { result ≡ letter_of x z }
    {
        match (x, z) {
            (false, false) => Letter::I,
            (true, false) => Letter::X,
            (true, true) => Letter::Y,
            (false, true) => Letter::Z,
        }
    }

    // Its bits (x, z).
    pub(crate) fn bits(self) -> (bool, bool)
        ensures { result ≡ (x_of self, z_of self) }
    {
        match self {
            Letter::I => (false, false),
            Letter::X => (true, false),
            Letter::Y => (true, true),
            Letter::Z => (false, true),
        }
    }

    pub fn name(self) -> &'static str
        ensures { result.now ≡ code_of self ∷ [] }
    {
        match self {
            Letter::I => "I",
            Letter::X => "X",
            Letter::Y => "Y",
            Letter::Z => "Z",
        }
    }

    // The ASCII code of the letter.
    pub fn code(self) -> u8
        ensures { result ≡ code_of self }
    {
        match self {
            Letter::I => b'I',
            Letter::X => b'X',
            Letter::Y => b'Y',
            Letter::Z => b'Z',
        }
    }
}

impl TryFrom<u8> for Letter {
    type Error = Fault;

    ghost try_from_gives = { Named code_of };

    // The letter of an ASCII code.
    fn try_from(code: u8) -> Result<Letter, Fault> {
        match code {
            b'I' => Ok(Letter::I),
            b'X' => Ok(Letter::X),
            b'Y' => Ok(Letter::Y),
            b'Z' => Ok(Letter::Z),
            _ => Err(Fault::BadForm),
        }
    }
}

// Whether a byte is a letter's code.
pub fn is_letter(byte: u8) -> bool
    ensures { result ≡ is_letter byte }
{
    Letter::try_from(byte).is_ok()
}

// Whether each byte of a text is a letter's code.
pub fn are_letters(text: &[u8]) -> bool
    ensures { result ≡ all_letters text.now }
{
    text.iter().all(|byte| is_letter(*byte))
}

// The bits (x, z) of a written letter.
pub fn letter_bits(c: char) -> Result<(bool, bool), Fault>
    ensures { result ≡ bits_of c }
{
    let code = u8::try_from(c).map_err(|_| Fault::BadForm)?;
    Ok(Letter::try_from(code)?.bits())
}
