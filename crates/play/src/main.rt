// Plays a list of calls on one qubit of width 1 with four coins, and prints each answer; a line that is read stands as it is.
// Then it fills the journal with gates.
#![tactic(auto)]

use coins::text::TextCoins;
use journal_lines::lines::LONGEST_LINE;
use pauli::fault::Fault;
use pauli::gate::{Gate, OneQubit};
use pauli::label::Label;
use qubit::point::{Qubit, X, Y, Z};
use runs::answer::{Answer, Conditional};
use runs::call::Call;
use session::playing::play;
use std::io;
use std::io::Write;

const TURN: Call = Call::Gate(Gate::One {
    gate: OneQubit::H,
    qubit: 1,
});

const CALLS: [Call; 21] = [
    Call::Size,
    Call::Width,
    Call::Measure {
        label: X,
        sign: false,
    },
    Call::Measure {
        label: X,
        sign: true,
    },
    Call::Value(Z),
    TURN,
    Call::Measure {
        label: Z,
        sign: false,
    },
    Call::Conditional {
        outcome: 2,
        gate: OneQubit::X,
        qubit: 1,
    },
    Call::Conditional {
        outcome: 1,
        gate: OneQubit::Y,
        qubit: 1,
    },
    Call::Measure {
        label: Z,
        sign: false,
    },
    Call::Measure {
        label: Y,
        sign: false,
    },
    Call::Measure {
        label: Label { x: 0, z: 0 },
        sign: true,
    },
    Call::Gate(Gate::One {
        gate: OneQubit::S,
        qubit: 2,
    }),
    Call::Gate(Gate::Cx {
        control: 1,
        target: 1,
    }),
    Call::Value(Label { x: 2, z: 0 }),
    Call::Conditional {
        outcome: 6,
        gate: OneQubit::H,
        qubit: 1,
    },
    Call::Read {
        entry: 1,
        room: LONGEST_LINE,
    },
    Call::Read {
        entry: 5,
        room: LONGEST_LINE,
    },
    Call::Read {
        entry: 8,
        room: LONGEST_LINE,
    },
    Call::Read {
        entry: 9,
        room: LONGEST_LINE,
    },
    Call::Read { entry: 3, room: 7 },
];

fn print(rt: HostRuntime, answer: Result<Answer, Fault>) -> io::Result<()> {
    match answer {
        Ok(Answer::Done | Answer::Conditional(Conditional::Done)) => println!(rt; "done"),
        Ok(Answer::Conditional(Conditional::PassedOver)) => println!(rt; "passed over"),
        Ok(Answer::Outcome(outcome)) => println!(rt; "outcome {}", u32::from(outcome)),
        Ok(Answer::Size(size)) => println!(rt; "size {size}"),
        Ok(Answer::Width(width)) => println!(rt; "width {width}"),
        Ok(Answer::Value(Some(value))) => println!(rt; "value {}", u32::from(value)),
        Ok(Answer::Value(None)) => println!(rt; "no value"),
        Ok(Answer::Line(line)) => rt.stdout().write_all(line.bytes()),
        Err(fault) => println!(rt; "refused {}", fault.number()),
    }
}

fn main(rt: HostRuntime) -> io::Result<()> {
    let point = Qubit {
        x: false,
        y: true,
        z: false,
    };
    let coins = TextCoins::over(b"1011").unwrap();
    let mut answers = [Ok(Answer::Done); CALLS.len()];
    let mut session = play(point, coins, &CALLS, &mut answers);
    let mut last = Ok(Answer::Done);
    // As many times as a journal has entries: so it gets full.
    for _ in 0..512 {
        last = session.call(TURN);
    }
    let entries = session.entries();
    let (_, _) = session.close();
    for answer in answers {
        print(rt, answer)?;
    }
    println!(rt; "entries {entries}")?;
    print(rt, last)
}
