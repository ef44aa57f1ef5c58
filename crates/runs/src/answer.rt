// What a session answers to the calls that it accepts.
ghost use Rattle.std.specs.Prelude.{◌≡◌, ◌≤◌, length as length_of, take};

use journal_lines::lines::LONGEST_LINE;

// What became of a conditional gate. The call succeeded either way, so this is no Result.
#[derive(Clone, Copy, PartialEq, Eq, Debug)]
pub enum Conditional {
    Done,
    PassedOver,
}

// A line read from the journal: the first `length` bytes of the text. The others are 0.
// A buffer and a length, since an answer is copied and nothing here has a heap.
#[derive(Clone, Copy, PartialEq, Eq, Debug)]
pub struct Line {
    pub text: [u8; LONGEST_LINE],
    pub length: usize,
    ghost whole: { length_of text ≡ 144 },
    ghost within: { length ≤ 144 },
}

impl Line {
    // The line itself, line feed and all.
    pub fn bytes(&self) -> &[u8]
        ensures { result.now ≡ take self.now.length self.now.text }
    {
        &self.text[0..self.length]
    }
}

#[derive(Clone, Copy, PartialEq, Eq, Debug)]
pub enum Answer {
    // A gate was done.
    Done,
    Conditional(Conditional),
    // A label was measured.
    Outcome(bool),
    Size(u32),
    Width(u32),
    Value(Option<bool>),
    Line(Line),
}
