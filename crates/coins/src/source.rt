// What a source of coins is, and drawing several coins at once.
ghost use Rattle.std.specs.Prelude.{◌≡◌, Bool, List, length, None};
ghost use Rattle.coins.specs.Coins.{Drawn, WordDrawn};

// A source means the list of coins still to come.
pub trait CoinSource {
    ghost coins: { Self → List Bool };

    // How many coins are left.
    fn left(&self) -> u64
        ensures { result ≡ length (coins self.now) };

    // The first coin to come, or none where there is none.
    fn draw(&mut self) -> Option<bool>
        ensures { Drawn (coins self.old) result (coins self.new) };
}

// The next `count` coins as a word, the first one lowest. Where fewer are left, or a word has no room for them,
// none is drawn.
pub fn draw_word<S: CoinSource>(source: &mut S, count: u32) -> Option<u64>
    ensures drawn { WordDrawn count (S.coins source.old) result (S.coins source.new) }
    ensures kept { result ≡ None → source.new ≡ source.old }
{
    if count > 64 || source.left() < u64::from(count) {
        return None;
    }
    let mut word: u64 = 0;
    // `i` is the place of the coin in the word, and not one in a list.
    for i in 0..count {
        let coin = source.draw()?;
        word += u64::from(coin) << i;
    }
    Some(word)
}
