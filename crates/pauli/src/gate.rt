// The gates: five on one qubit, by a table of letter images, and CX on two.
ghost use Rattle.std.specs.Prelude.{◌≡◌, [], ◌∷◌};
ghost use Rattle.pauli.specs.Gates.{gate_byte, image_of};
ghost use Rattle.pauli.specs.Names.{Named};

use crate::fault::Fault;
use crate::letter::Letter;

#[derive(Clone, Copy, PartialEq, Eq, Debug)]
pub enum OneQubit {
    H,
    S,
    X,
    Y,
    Z,
}

// A gate as it comes from outside: its qubits are any numbers.
#[derive(Clone, Copy, PartialEq, Eq, Debug)]
pub enum Gate {
    One { gate: OneQubit, qubit: u32 },
    Cx { control: u32, target: u32 },
}

// What a gate makes of one letter: a letter, and whether the sign flips. (Signs are bits that are added, here and everywhere.)
#[derive(Clone, Copy)]
pub struct Image {
    pub letter: Letter,
    pub sign: bool,
}

const I: Image = Image {
    letter: Letter::I,
    sign: false,
};

const X: Image = Image {
    letter: Letter::X,
    sign: false,
};

const Y: Image = Image {
    letter: Letter::Y,
    sign: false,
};

const Z: Image = Image {
    letter: Letter::Z,
    sign: false,
};

const MINUS_X: Image = Image {
    letter: Letter::X,
    sign: true,
};

const MINUS_Y: Image = Image {
    letter: Letter::Y,
    sign: true,
};

const MINUS_Z: Image = Image {
    letter: Letter::Z,
    sign: true,
};

// What a gate makes of each letter.
#[derive(Clone, Copy)]
pub struct Images {
    i: Image,
    x: Image,
    y: Image,
    z: Image,
}

// One row to a gate, in the order of `OneQubit`.
const GATES: [Images; 5] = [
    Images {
        i: I,
        x: Z,
        y: MINUS_Y,
        z: X,
    },
    Images {
        i: I,
        x: Y,
        y: MINUS_X,
        z: Z,
    },
    Images {
        i: I,
        x: X,
        y: MINUS_Y,
        z: MINUS_Z,
    },
    Images {
        i: I,
        x: MINUS_X,
        y: Y,
        z: MINUS_Z,
    },
    Images {
        i: I,
        x: MINUS_X,
        y: MINUS_Y,
        z: Z,
    },
];

impl OneQubit {
    // The image of a letter, read off the table.
    pub fn image(self, letter: Letter) -> Image
        ensures { result ≡ image_of self letter }
    {
        // A gate's place in the table is its place in the enum.
        let Images { i, x, y, z } = GATES[self as usize];
        match letter {
            Letter::I => i,
            Letter::X => x,
            Letter::Y => y,
            Letter::Z => z,
        }
    }

    // A name and a code are tables of the gates themselves, as those of the letters.
    pub fn name(self) -> &'static str
        ensures { result.now ≡ gate_byte self ∷ [] }
    {
        match self {
            OneQubit::H => "H",
            OneQubit::S => "S",
            OneQubit::X => "X",
            OneQubit::Y => "Y",
            OneQubit::Z => "Z",
        }
    }

    // The ASCII code of the gate's name.
    pub fn code(self) -> u8
        ensures { result ≡ gate_byte self }
    {
        match self {
            OneQubit::H => b'H',
            OneQubit::S => b'S',
            OneQubit::X => b'X',
            OneQubit::Y => b'Y',
            OneQubit::Z => b'Z',
        }
    }
}

impl TryFrom<u8> for OneQubit {
    type Error = Fault;

    ghost try_from_gives = { Named gate_byte };

    // The gate of a name's ASCII code.
    fn try_from(code: u8) -> Result<OneQubit, Fault> {
        match code {
            b'H' => Ok(OneQubit::H),
            b'S' => Ok(OneQubit::S),
            b'X' => Ok(OneQubit::X),
            b'Y' => Ok(OneQubit::Y),
            b'Z' => Ok(OneQubit::Z),
            _ => Err(Fault::BadForm),
        }
    }
}
