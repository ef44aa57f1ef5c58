// The fields of the lines in use, and what is refused.
use crate::end::End;
use crate::read::Fields;
use crate::write;
use crate::write::Field;
use pauli::fault::Fault;
use pauli::gate::{Gate, OneQubit};
use pauli::label::Label;

fn at(text: &[u8], at: usize) -> Fields<'_> {
    Fields { text, at }
}

#[test]
fn numbers(rt: HostRuntime) {
    let mut fields = at(b"0,", 0);
    assert_eq!(rt; fields.number(End::Comma), Ok(0));
    assert_eq!(rt; fields.at, 2);
    let mut fields = at(b"7,512\n", 2);
    assert_eq!(rt; fields.number(End::LineFeed), Ok(512));
    assert_eq!(rt; fields.at, 6);
    assert_eq!(rt; at(b"07,", 0).number(End::Comma), Err(Fault::BadForm));
    assert_eq!(rt; at(b"1000,", 0).number(End::Comma), Err(Fault::BadForm));
    assert_eq!(rt; at(b"1", 0).number(End::Comma), Err(Fault::BadForm));
    assert_eq!(rt;
        at(b"1,", usize::MAX).number(End::Comma),
        Err(Fault::BadForm)
    );
}

#[test]
fn gates(rt: HostRuntime) {
    let mut fields = at(b"H,1\n", 0);
    let h = Gate::One {
        gate: OneQubit::H,
        qubit: 1,
    };
    assert_eq!(rt; fields.gate(End::LineFeed), Ok(h));
    assert_eq!(rt; fields.at, 4);
    let mut fields = at(b"CX,1,2\n", 0);
    let cx = Gate::Cx {
        control: 1,
        target: 2,
    };
    assert_eq!(rt; fields.gate(End::LineFeed), Ok(cx));
    assert_eq!(rt; fields.at, 7);
    assert_eq!(rt;
        at(b"CX,1,2\n", 0).one_qubit(End::LineFeed),
        Err(Fault::BadForm)
    );
    assert_eq!(rt; at(b"CZ,1,2\n", 0).gate(End::LineFeed), Err(Fault::BadForm));
}

#[test]
fn letters(rt: HostRuntime) {
    let mut fields = at(b"M,IXYZ,", 2);
    assert_eq!(rt; fields.letters(End::Comma), Ok(b"IXYZ".as_slice()));
    assert_eq!(rt; fields.at, 7);
    assert_eq!(rt; at(b",", 0).letters(End::Comma), Err(Fault::BadForm));
    assert_eq!(rt; at(b"IXA,", 0).letters(End::Comma), Err(Fault::BadForm));
    let mut fields = at(b"-,", 0);
    assert_eq!(rt; fields.sign(End::Comma), Ok(true));
    assert_eq!(rt; fields.at, 2);
}

#[test]
fn lines(rt: HostRuntime) {
    let fields = [
        Field::Number(107),
        Field::Sign(true),
        Field::Letters {
            size: 3,
            label: Label { x: 3, z: 6 },
        },
        Field::Coins { count: 3, word: 4 },
    ];
    let mut out = [b'.'; 16];
    assert_eq!(rt; write::line(&fields, &mut out), Ok(14));
    assert_eq!(rt; &out, b"107,-,XYZ,001\n..");
    let mut short = [b'.'; 13];
    assert_eq!(rt; write::line(&fields, &mut short), Err(Fault::ShortBuffer));
    assert_eq!(rt; &short, &[b'.'; 13]);
}
