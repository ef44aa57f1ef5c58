// Coins read from a text of digits 0 and 1.
ghost use Rattle.std.specs.Prelude.{◌≡◌, Bool, List, MatchResult, ◌≢◌};
ghost use Rattle.pauli.specs.declared.fault.Fault.TheVariants.{BadForm};
ghost use Rattle.coins.specs.Digits.{digits, is_digit, all_digits, text_coins};

use crate::source::CoinSource;
use pauli::fault::Fault;

// The coins still to come, as the part of the text that has not been read.
#[derive(Drop)]
pub struct TextCoins<'a> {
    rest: &'a [u8],
}

fn is_digit(byte: u8) -> bool
    ensures { result ≡ is_digit byte }
{
    matches!(byte, b'0' | b'1')
}

// (A reader of fields tests the same. No crate that lies below both is about coins.)
fn only_digits(text: &[u8]) -> bool
    ensures { result ≡ all_digits text.now }
{
    text.iter().all(|byte| is_digit(*byte))
}

impl<'a> TextCoins<'a> {
    // Coins over a text, which is lent and not copied. Any byte but 0 and 1 is refused.
    pub fn over(text: &'a [u8]) -> Result<TextCoins<'a>, Fault>
        ensures { MatchResult result (λ c. text.now ≡ digits (text_coins c)) (λ e. (e ≡ BadForm) × ((cs : List Bool) → text.now ≢ digits cs)) }
    {
        if !only_digits(text) {
            return Err(Fault::BadForm);
        }
        Ok(TextCoins { rest: text })
    }
}

impl<'a> CoinSource for TextCoins<'a> {
    ghost coins = { text_coins };

    fn left(&self) -> u64 {
        self.rest.len() as u64
    }

    fn draw(&mut self) -> Option<bool> {
        let (first, rest) = self.rest.split_first()?;
        self.rest = rest;
        Some(*first == b'1')
    }
}
