// The four ways in which a measured label can stand to a point's values.
ghost use Rattle.std.specs.Prelude.{◌≡◌};
ghost use Rattle.pauli.specs.Cases.{case_number};
ghost use Rattle.pauli.specs.Names.{Named};

use crate::fault::Fault;

#[derive(Clone, Copy, PartialEq, Eq, Debug)]
pub enum Case {
    One = 1,
    Two = 2,
    Three = 3,
    Four = 4,
}

impl Case {
    // The number by which a case is printed and archived.
    pub fn number(self) -> u32
        ensures { result ≡ case_number self }
    {
        self as u32
    }
}

impl TryFrom<u32> for Case {
    type Error = Fault;

    ghost try_from_gives = { Named case_number };

    fn try_from(number: u32) -> Result<Case, Fault> {
        match number {
            1 => Ok(Case::One),
            2 => Ok(Case::Two),
            3 => Ok(Case::Three),
            4 => Ok(Case::Four),
            _ => Err(Fault::BadForm),
        }
    }
}
