// An entry of the journal. One that is not lawful cannot be made.
ghost use Rattle.std.specs.Prelude.{◌≡◌, true};
ghost use Rattle.pauli.specs.Faults.{Answers};
ghost use Rattle.journal_lines.specs.Lawful.{lawful as is_lawful, making_fault};

use crate::event::Event;
use pauli::fault::Fault;

#[derive(Clone, Copy, PartialEq, Eq, Debug)]
pub struct Entry {
    number: u32,
    event: Event,
    ghost lawful: { is_lawful number event ≡ true },
}

impl Entry {
    // The entry of this number that tells this event, if it is lawful.
    pub fn new(number: u32, event: Event) -> Result<Entry, Fault>
        ensures { Answers (making_fault number event) (λ e. (e.number ≡ number) × (e.event ≡ event)) result }
    {
        if !(1..=512).contains(&number) || !event.is_sound(number) {
            return Err(Fault::BadForm);
        }
        Ok(Entry { number, event })
    }

    pub fn number(&self) -> u32
        ensures { result ≡ self.now.number }
    {
        self.number
    }

    pub fn event(&self) -> Event
        ensures { result ≡ self.now.event }
    {
        self.event
    }
}
