// The journal: up to 512 events in their order, each lawful at its place.
ghost use Rattle.std.specs.Prelude.{List, take};
ghost use Rattle.journal_lines.specs.declared.event.Event.{Event};
ghost use Rattle.journal.specs.Places.{Kept};

use journal_lines::event::Event;
use std::marker::Model;

mod keeping;

// It holds all its memory from the start, since nothing here may allocate.
#[derive(Drop)]
pub struct Journal {
    len: usize,
    slots: [Event; 512],
}

// Clauses see the events.
impl Model for Journal {
    ghost Value = { List Event };

    ghost view = { λ j. take j.len j.slots };

    ghost invariant = { λ j. Kept j.len j.slots };
}
