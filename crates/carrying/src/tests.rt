// Texts that end well, and each refusal with its line.
use crate::carry::carry;
use pauli::fault::Fault;
use std::test::Fail;
use text::stop::Stop;

fn check_ending(
    rt: &HostRuntime,
    text: &[u8],
    rows: usize,
    ending: Result<(), Stop>,
) -> Result<(), Fail> {
    let report = carry(rt.alloc(), text)?;
    if report.rows.len() != rows {
        return Err(Fail::new("another number of rows"));
    }
    if report.ending != ending {
        return Err(Fail::new("another ending"));
    }
    Ok(())
}

fn refused(line: usize, fault: Fault) -> Result<(), Stop> {
    Err(Stop { line, fault })
}

#[test]
fn texts_end_at_their_end(rt: HostRuntime) -> Result<(), Fail> {
    check_ending(&rt, b"+,XZ\nG,CX,1,2\nG,H,1\n", 2, Ok(()))?;
    check_ending(&rt, b"-,Y\n", 0, Ok(()))
}

#[test]
fn texts_end_at_the_line_refused(rt: HostRuntime) -> Result<(), Fail> {
    check_ending(&rt, b"", 0, refused(0, Fault::TextEnded))?;
    check_ending(&rt, b"+,\n", 0, refused(1, Fault::BadForm))?;
    check_ending(&rt, b"+,XZ", 0, refused(1, Fault::BadForm))?;
    check_ending(&rt, &[b'I'; 40000], 0, refused(0, Fault::BadForm))?;
    check_ending(&rt, b"+,XZ\nG,H,1\nG,H,3\n", 1, refused(3, Fault::BadQubit))?;
    check_ending(&rt, b"+,XZ\nG,CX,2,2\n", 0, refused(2, Fault::SameQubit))?;
    check_ending(&rt, b"+,XZ\nG,H,01\n", 0, refused(2, Fault::BadForm))
}
