// The closed list of refusals. Every call of the instrument answers, or refuses by one of these.
ghost use Rattle.std.specs.Prelude.{◌≡◌};
ghost use Rattle.pauli.specs.Faults.{number_of};

#[derive(Clone, Copy, PartialEq, Eq, Debug)]
pub enum Fault {
    BadForm = 1,
    TextEnded = 2,
    BadSize = 3,
    BadWidth = 4,
    BadRows = 5,
    BadStart = 6,
    BadQubit = 7,
    SameQubit = 8,
    BadLabel = 9,
    NoOutcome = 10,
    JournalFull = 11,
    TooFewCoins = 12,
    NoEntry = 13,
    ShortBuffer = 14,
}

impl Fault {
    // The number by which a refusal is printed and archived.
    pub fn number(self) -> u32
        ensures { result ≡ number_of self }
    {
        self as u32
    }
}
