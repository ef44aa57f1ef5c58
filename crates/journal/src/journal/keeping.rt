// What the journal does. No entry is ever changed: the journal only grows.
ghost use Rattle.std.specs.Prelude.{◌≡◌, ◌≤◌, true, [], ◌∷◌, ◌++◌, length, is_err, nat_le};
ghost use Rattle.pauli.specs.Faults.{Answers};
ghost use Rattle.journal.specs.Journals.{outcome_of, outcomes, kth, answer, adding_fault, Reading};
ghost use Rattle.journal.specs.Places.{all_lawful};

use crate::journal::Journal;
use journal_lines::entry::Entry;
use journal_lines::event::Event;
use pauli::fault::Fault;
use pauli::gate::Gate;

// What stands in a slot that no event has taken yet.
const BLANK: Event = Event::Gate(Gate::Cx {
    control: 0,
    target: 0,
});

// The outcome that an event has.
fn outcome_of(event: &Event) -> Option<bool>
    ensures { result ≡ outcome_of event.now }
{
    match event {
        Event::Measurement(m) => Some(m.outcome),
        _ => None,
    }
}

impl Journal {
    // An empty journal.
    pub fn new() -> Journal
        ensures { result ≡ [] }
    {
        Journal {
            len: 0,
            slots: [BLANK; 512],
        }
    }

    fn events(&self) -> &[Event]
        ensures all { result.now ≡ self.now }
        ensures lawful { all_lawful 1 self.now ≡ true }
    {
        &self.slots[..self.len]
    }

    // How many entries there are.
    pub fn len(&self) -> u32
        ensures count { result ≡ length self.now }
        ensures within { length self.now ≤ 512 }
    {
        self.len as u32
    }

    pub fn is_full(&self) -> bool
        ensures { result ≡ nat_le 512 (length self.now) }
    {
        512 <= self.len
    }

    // Adds an event as the next entry.
    pub fn add(&mut self, event: Event) -> Result<(), Fault>
        ensures added { Answers (adding_fault self.old event) (λ _. self.new ≡ self.old ++ event ∷ []) result }
        ensures kept { is_err result ≡ true → self.new ≡ self.old }
    {
        if !event.is_sound(self.len() + 1) {
            return Err(Fault::BadForm);
        }
        if self.is_full() {
            return Err(Fault::JournalFull);
        }
        self.slots[self.len] = event;
        self.len += 1;
        Ok(())
    }

    // The k-th outcome, counted from 1.
    pub fn outcome(&self, k: u32) -> Result<bool, Fault>
        ensures { result ≡ answer Fault.NoOutcome (kth (outcomes self.now) k) }
    {
        let before = k.checked_sub(1).ok_or(Fault::NoOutcome)?;
        let mut outcomes = self.events().iter().filter_map(outcome_of);
        outcomes.nth(before as usize).ok_or(Fault::NoOutcome)
    }

    // The k-th entry, counted from 1.
    pub fn entry(&self, k: u32) -> Result<Entry, Fault>
        ensures reading { Reading self.now k result }
        ensures lawful { all_lawful 1 self.now ≡ true }
    {
        let events = self.events();
        let before = k.checked_sub(1).ok_or(Fault::NoEntry)?;
        let event = events.get(before as usize).ok_or(Fault::NoEntry)?;
        Entry::new(k, *event)
    }
}
