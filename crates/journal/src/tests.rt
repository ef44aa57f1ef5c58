// The journal's answers and refusals, and an entry in words.
use crate::Journal;
use crate::words::Words;
use journal_lines::entry::Entry;
use journal_lines::event::{Event, Measurement};
use pauli::case::Case;
use pauli::fault::Fault;
use pauli::gate::{Gate, OneQubit};
use pauli::label::Label;
use std::test::Fail;

const ZI: Measurement = Measurement {
    sign: false,
    size: 2,
    label: Label { x: 0, z: 1 },
    case: Case::Four,
    outcome: true,
    count: 1,
    coins: 1,
};

#[test]
fn the_journal(rt: HostRuntime) {
    let mut j = Journal::new();
    let asks = Event::Conditional {
        done: true,
        outcome: 1,
        gate: OneQubit::X,
        qubit: 1,
    };
    assert_eq!(rt; j.add(asks), Err(Fault::BadForm));
    assert_eq!(rt; j.outcome(1), Err(Fault::NoOutcome));
    assert_eq!(rt; j.entry(1), Err(Fault::NoEntry));
    assert_eq!(rt; j.add(Event::Measurement(ZI)), Ok(()));
    assert_eq!(rt; j.add(asks), Ok(()));
    assert_eq!(rt; j.outcome(1), Ok(true));
    assert_eq!(rt; j.outcome(0), Err(Fault::NoOutcome));
    assert_eq!(rt; j.entry(2), Entry::new(2, asks));
    assert_eq!(rt; j.entry(3), Err(Fault::NoEntry));
}

#[test]
fn a_full_journal(rt: HostRuntime) -> Result<(), Fail> {
    let mut j = Journal::new();
    let h = Event::Gate(Gate::One {
        gate: OneQubit::H,
        qubit: 64,
    });
    for _ in 0..512 {
        j.add(h)?;
    }
    assert!(rt; j.is_full());
    assert_eq!(rt; j.len(), 512);
    assert_eq!(rt; j.add(h), Err(Fault::JournalFull));
    assert_eq!(rt;
        j.add(Event::Gate(Gate::Cx {
            control: 1,
            target: 65,
        })),
        Err(Fault::BadForm)
    );
    Ok(())
}

#[test]
fn plain_words(rt: HostRuntime) -> Result<(), Fail> {
    let e = Entry::read_line(b"3,M,+,ZI,4,1,1,1\n")?;
    let words = Words(e).to_string(rt.alloc())?;
    assert_eq!(rt;
        words.as_str(),
        "Entry 3: +ZI was measured, an unvalued label that does not commute with the centre (Case 4); the outcome was 1; coins drawn: 1."
    );
    Ok(())
}
