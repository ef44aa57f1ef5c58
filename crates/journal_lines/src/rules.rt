// The rules that make an event lawful.
ghost use Rattle.std.specs.Prelude.{◌≡◌};
ghost use Rattle.pauli.specs.Gates.{placeable};
ghost use Rattle.journal_lines.specs.Lawful.{count_ok, first_ok, measured_ok, sound};

use crate::event::{Event, Measurement};
use pauli::bits::below;
use pauli::case::Case;
use pauli::gate::Gate;
use pauli::qubits::{is_size, on_board};

fn placeable(gate: Gate) -> bool
    ensures { result ≡ placeable gate }
{
    gate.placed(64).is_ok()
}

// Whether a measurement in this case, of so many letters, takes so many coins.
fn count_ok(case: Case, size: u32, count: u32) -> bool
    ensures { result ≡ count_ok case size count }
{
    match case {
        Case::One => count == 0,
        Case::Two | Case::Four => count == 1,
        Case::Three => (1..size).contains(&count),
    }
}

fn first_ok(case: Case, outcome: bool, coins: u64) -> bool
    ensures { result ≡ first_ok case outcome coins }
{
    match case {
        Case::One | Case::Two => true,
        Case::Three | Case::Four => outcome == (coins % 2 == 1),
    }
}

fn measured_ok(m: &Measurement) -> bool
    ensures { result ≡ measured_ok m.now }
{
    is_size(m.size)
        && m.label.fits(m.size)
        && count_ok(m.case, m.size, m.count)
        && below(m.coins, m.count)
        && first_ok(m.case, m.outcome, m.coins)
}

impl Event {
    // Whether entry k may tell this event, but for the bound on k.
    pub fn is_sound(&self, k: u32) -> bool
        ensures { result ≡ sound k self.now }
    {
        match self {
            Event::Gate(gate) => placeable(*gate),
            Event::Conditional {
                done: _,
                outcome,
                gate: _,
                qubit,
            } => (1..k).contains(outcome) && on_board(64, *qubit),
            Event::Measurement(m) => measured_ok(m),
        }
    }
}
