// A phase point of one qubit and width 1: the centre is the zero label, and X, Y and Z are three rays.
ghost use Rattle.std.specs.Prelude.{◌≡◌, true, false, MatchResult};
ghost use Rattle.pauli.specs.Labels.{at, fits};
ghost use Rattle.qubit.specs.OneQubit.{sign_of, case_of, coins_of, sheet_of, turned_by, flipped_by};
ghost use Rattle.qubit.specs.ValuesLemmas as Values;

use pauli::case::Case;
use pauli::fault::Fault;
use pauli::gate::{Gate, OneQubit};
use pauli::label::Label;
use pauli::letter::Letter;
use phase::point::PhasePoint;
use phase::sheet::ValueSheet;

// The values of X, Y and Z: true for 1. They are bits that coins are added to.
#[derive(Clone, Copy)]
pub struct Qubit {
    pub x: bool,
    pub y: bool,
    pub z: bool,
}

const SIZE: u32 = 1;

const WIDTH: u32 = 1;

// The labels of the three rays.
pub const X: Label = Label { x: 1, z: 0 };

pub const Y: Label = Label { x: 1, z: 1 };

pub const Z: Label = Label { x: 0, z: 1 };

// The letter of a label of one qubit.
fn letter(label: Label) -> Result<Letter, Fault>
    ensures { MatchResult result (λ l. (fits 1 label ≡ true) × (l ≡ at label 0)) (λ e. (fits 1 label ≡ false) × (e ≡ Fault.BadLabel)) }
{
    if !label.fits(SIZE) {
        return Err(Fault::BadLabel);
    }
    label.letter(1)
}

// The case of a letter and the coins that it needs.
fn kind(letter: Letter) -> (Case, u32)
    ensures { result ≡ (case_of letter, coins_of letter) }
{
    match letter {
        Letter::I => (Case::One, 0),
        Letter::X | Letter::Y | Letter::Z => (Case::Two, 1),
    }
}

impl Qubit {
    // The value of a letter.
    fn sign(&self, letter: Letter) -> bool
        ensures { result ≡ sign_of self.now letter }
    {
        match letter {
            Letter::I => false,
            Letter::X => self.x,
            Letter::Y => self.y,
            Letter::Z => self.z,
        }
    }

    // What a gate makes of the three values.
    fn turned(&self, gate: OneQubit) -> Qubit
        ensures { result ≡ turned_by gate self.now }
    {
        match gate {
            OneQubit::H => Qubit {
                x: self.z,
                y: !self.y,
                z: self.x,
            },
            OneQubit::S => Qubit {
                x: !self.y,
                y: self.x,
                ..*self
            },
            OneQubit::X => Qubit {
                y: !self.y,
                z: !self.z,
                ..*self
            },
            OneQubit::Y => Qubit {
                x: !self.x,
                z: !self.z,
                ..*self
            },
            OneQubit::Z => Qubit {
                x: !self.x,
                y: !self.y,
                ..*self
            },
        }
    }

    // The values after a coin 1: each that anticommutes with the label is flipped.
    fn flipped(&self, label: Label) -> Qubit
        ensures { result ≡ flipped_by label self.now }
    {
        Qubit {
            x: self.x ^ label.anticommutes(X),
            y: self.y ^ label.anticommutes(Y),
            z: self.z ^ label.anticommutes(Z),
        }
    }
}

impl ValueSheet for Qubit {
    ghost sheet = { sheet_of };

    ghost lawful = { λ s. Values.lawful s };

    fn size(&self) -> u32 {
        SIZE
    }

    fn width(&self) -> u32 {
        WIDTH
    }

    fn value(&self, a: Label) -> Result<Option<bool>, Fault> {
        let letter = letter(a)?;
        Ok(Some(self.sign(letter)))
    }
}

impl PhasePoint for Qubit {
    fn gate(&mut self, g: Gate) -> Result<(), Fault> {
        g.placed(SIZE)?;
        match g {
            Gate::One { gate, qubit: _ } => *self = self.turned(gate),
            Gate::Cx {
                control: _,
                target: _,
            } => {}
        }
        Ok(())
    }

    fn look(&self, b: Label) -> Result<(Case, u32), Fault> {
        Ok(kind(letter(b)?))
    }

    #[tactic(auto, using(crate::proofs::Tosses::with_coin, crate::proofs::Tosses::without_coin))]
    fn measure(&mut self, b: Label, sign: bool, coins: u64) -> Result<bool, Fault> {
        let letter = letter(b)?;
        let outcome = self.sign(letter) ^ sign;
        if coins % 2 == 1 {
            *self = self.flipped(b);
        }
        Ok(outcome)
    }
}
