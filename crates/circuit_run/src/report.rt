// What a circuit came to.
use journal::Journal;
use text::stop::Stop;

// What is told at the end of a text: how many entries the journal has, how many coins were spent, and the width.
#[derive(Clone, Copy, PartialEq, Eq, Debug)]
pub struct Finish {
    pub entries: u32,
    pub coins: u64,
    pub width: u32,
}

// The journal of what was done, and how it ended: at the text's end, or at a line refused.
#[derive(Drop)]
pub struct Report {
    pub journal: Journal,
    pub end: Result<Finish, Stop>,
}
