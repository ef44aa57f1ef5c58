// The lines of lawful entries, damaged lines, and the journal's refusals.
use crate::entry::Entry;
use crate::event::{Event, Measurement};
use crate::lines::LONGEST_LINE;
use pauli::case::Case;
use pauli::fault::Fault;
use pauli::label::Label;
use std::test::Fail;

const ZI: Measurement = Measurement {
    sign: false,
    size: 2,
    label: Label { x: 0, z: 1 },
    case: Case::Four,
    outcome: true,
    count: 1,
    coins: 1,
};

// Reads a line and writes it again.
fn again(line: &[u8]) -> Result<bool, Fault> {
    let mut out = [0u8; LONGEST_LINE];
    let n = Entry::read_line(line)?.write_line(&mut out)?;
    Ok(&out[0..n] == line)
}

#[test]
fn lines_of_each_kind(rt: HostRuntime) {
    assert_eq!(rt; again(b"1,G,H,1\n"), Ok(true));
    assert_eq!(rt; again(b"2,G,CX,1,2\n"), Ok(true));
    assert_eq!(rt; again(b"3,M,+,ZI,4,1,1,1\n"), Ok(true));
    assert_eq!(rt; again(b"4,M,-,IZ,1,0,0,-\n"), Ok(true));
    assert_eq!(rt; again(b"4,D,1,X,1\n"), Ok(true));
    assert_eq!(rt; again(b"4,P,1,X,1\n"), Ok(true));
}

#[test]
fn a_line_tells_its_entry(rt: HostRuntime) -> Result<(), Fail> {
    let e = Entry::read_line(b"3,M,+,ZI,4,1,1,1\n")?;
    assert_eq!(rt; e.number(), 3);
    assert_eq!(rt; e.event(), Event::Measurement(ZI));
    Ok(())
}

#[test]
fn the_longest_line(rt: HostRuntime) -> Result<(), Fail> {
    let line =
        b"512,M,-,XYZIXYZIXYZIXYZIXYZIXYZIXYZIXYZIXYZIXYZIXYZIXYZIXYZIXYZIXYZIXYZI,3,1,63,101010101010101010101010101010101010101010101010101010101010101\n";
    assert_eq!(rt; line.len(), LONGEST_LINE);
    assert_eq!(rt; again(line), Ok(true));
    let e = Entry::read_line(line)?;
    let mut short = [b'.'; 143];
    assert_eq!(rt; e.write_line(&mut short), Err(Fault::ShortBuffer));
    assert_eq!(rt; short[0], b'.');
    Ok(())
}

#[test]
fn damaged_lines(rt: HostRuntime) {
    assert_eq!(rt; again(b"01,G,H,1\n"), Err(Fault::BadForm));
    assert_eq!(rt; again(b"1,G,H,1"), Err(Fault::BadForm));
    assert_eq!(rt; again(b"1,G,H,1\n\n"), Err(Fault::BadForm));
    assert_eq!(rt; again(b"0,G,H,1\n"), Err(Fault::BadForm));
    assert_eq!(rt; again(b"513,G,H,1\n"), Err(Fault::BadForm));
    assert_eq!(rt; again(b"1,G,H,65\n"), Err(Fault::BadForm));
    assert_eq!(rt; again(b"2,G,CX,1,1\n"), Err(Fault::BadForm));
    assert_eq!(rt; again(b"4,D,4,X,1\n"), Err(Fault::BadForm));
}

#[test]
fn damaged_measurements(rt: HostRuntime) {
    assert_eq!(rt; again(b"3,M,+,ZI,4,0,1,1\n"), Err(Fault::BadForm));
    assert_eq!(rt; again(b"3,M,+,ZI,4,1,1,11\n"), Err(Fault::BadForm));
    assert_eq!(rt; again(b"3,M,+,ZI,3,1,2,11\n"), Err(Fault::BadForm));
    assert_eq!(rt; again(b"3,M,+,ZI,1,1,1,1\n"), Err(Fault::BadForm));
    assert_eq!(rt; again(b"3,M,+,ZI,5,1,1,1\n"), Err(Fault::BadForm));
    let line = b"3,M,+,IIIIIIIIIIIIIIIIIIIIIIIIIIIIIIIIIIIIIIIIIIIIIIIIIIIIIIIIIIIIIIIII,1,0,0,-\n";
    assert_eq!(rt; again(line), Err(Fault::BadForm));
}
