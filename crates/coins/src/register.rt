// Coins made by a shift register of 16 bits.
ghost use Rattle.std.specs.Prelude.{◌≡◌, ◌<◌, MatchResult};
ghost use Rattle.pauli.specs.declared.fault.Fault.TheVariants.{BadStart};
ghost use Rattle.coins.specs.Tosses.{next, tosses, register_coins};

use crate::source::CoinSource;
use pauli::bits::bit;
use pauli::fault::Fault;

// The word that the register holds, and how many draws are left.
#[derive(Drop)]
pub struct Register {
    word: u16,
    draws: u16,
}

fn next(word: u16) -> u16
    ensures { result ≡ next word }
{
    let bits = u64::from(word);
    let top = bit(bits, 0) ^ bit(bits, 2) ^ bit(bits, 3) ^ bit(bits, 5);
    if top { (word >> 1) + 0x8000 } else { word >> 1 }
}

impl Register {
    // A register that starts at a word and gives a number of coins.
    pub fn new(start: u16, draws: u16) -> Result<Register, Fault>
        ensures { MatchResult result (λ c. (0 < start) × (register_coins c ≡ tosses start draws)) (λ e. (start ≡ 0) × (e ≡ BadStart)) }
    {
        if start == 0 {
            return Err(Fault::BadStart);
        }
        Ok(Register { word: start, draws })
    }
}

impl CoinSource for Register {
    ghost coins = { register_coins };

    fn left(&self) -> u64 {
        u64::from(self.draws)
    }

    fn draw(&mut self) -> Option<bool> {
        self.draws = self.draws.checked_sub(1)?;
        let coin = bit(u64::from(self.word), 0);
        self.word = next(self.word);
        Some(coin)
    }
}
