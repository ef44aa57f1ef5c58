// How long a text may be.

// The most bytes of a text that is read whole.
pub const MOST_BYTES: usize = 32768;

// One byte more: whoever reads so many sees whether a text is too long.
pub const ENOUGH: u64 = MOST_BYTES as u64 + 1;
