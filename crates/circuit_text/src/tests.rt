// A circuit read through, and lines that are not of their form.
use crate::line::Line;
use crate::reader::Reader;
use pauli::fault::Fault;
use pauli::gate::{Gate, OneQubit};
use std::test::Fail;

fn is_refused(text: &[u8], fault: Fault) -> Result<bool, Fault> {
    let mut reader = Reader::over(text)?;
    match reader.next() {
        Ok(_) => Ok(false),
        Err(why) => Ok(why.number() == fault.number() && reader.fields.at == 0),
    }
}

#[test]
fn a_circuit_is_read_through(rt: HostRuntime) -> Result<(), Fail> {
    let mut reader = Reader::over(b"Q,3,2\nB,1011\nG,CX,1,2\nM,-,XIZ\nF,1,X,3\n")?;
    let opening = reader.opening()?;
    assert!(rt; opening.size == 3 && opening.width == 2);
    assert_eq!(rt; reader.coins()?.len(), 4);
    if let Some(Line::Gate(Gate::Cx { control, target })) = reader.next()? {
        assert!(rt; control == 1 && target == 2);
    }
    if let Some(Line::Measure { sign, letters }) = reader.next()? {
        assert!(rt; sign && letters.len() == 3);
    }
    assert_eq!(rt; reader.fields.at, 30);
    if let Some(
        Line::Conditional {
            outcome,
            gate: OneQubit::X,
            qubit,
        },
    ) = reader.next()?
    {
        assert!(rt; outcome == 1 && qubit == 3);
    }
    assert!(rt; reader.next()?.is_none());
    Ok(())
}

#[test]
fn other_lines_are_refused(rt: HostRuntime) -> Result<(), Fail> {
    assert!(rt; is_refused(b"G,H,01\n", Fault::BadForm)?);
    assert!(rt; is_refused(b"G,H,1", Fault::BadForm)?);
    assert!(rt; is_refused(b"M,+,\n", Fault::BadForm)?);
    assert!(rt; is_refused(b"M,+,XQ\n", Fault::BadForm)?);
    assert!(rt; is_refused(b"F,1,CX,1,2\n", Fault::BadForm)?);
    assert!(rt; is_refused(b"Q,3,2\n", Fault::BadForm)?);
    assert!(rt; is_refused(b"\n", Fault::BadForm)?);
    Ok(())
}
