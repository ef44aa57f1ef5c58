// Single bits of a word.
ghost use Rattle.std.specs.Prelude.{◌≡◌, ◌^◌, ◌<◌, nat_lt};
ghost use Rattle.pauli.specs.Bits.{bit_of, with_bit};

// The bit of value 2^i.
pub(crate) fn bit_within(word: u64, i: u32) -> bool
    requires { i < 64 }
    ensures { result ≡ bit_of word i }
{
    (word >> i) % 2 == 1
}

// The same for any i: a word has no bit beyond its 64.
pub fn bit(word: u64, i: u32) -> bool
    ensures { result ≡ bit_of word i }
{
    i < 64 && bit_within(word, i)
}

// The word with that bit made `b`.
pub(crate) fn with_bit(word: u64, i: u32, b: bool) -> u64
    requires { i < 64 }
    ensures { result ≡ with_bit word i b }
{
    if bit_within(word, i) == b {
        word
    } else {
        word ^ (1 << i)
    }
}

// Whether a word has no bit beyond the first `count`.
pub fn below(word: u64, count: u32) -> bool
    ensures { result ≡ nat_lt word (2 ^ count) }
{
    count >= 64 || word >> count == 0
}
