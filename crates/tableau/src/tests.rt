// Runs through the calls, and each refusal.
use crate::tableau::Tableau;
use pauli::case::Case;
use pauli::fault::Fault;
use pauli::gate::{Gate, OneQubit};
use pauli::label::Label;
use pauli::row::Row;
use phase::point::PhasePoint;
use phase::sheet::ValueSheet;
use std::test::Fail;

fn row(sign: bool, text: &[u8], n: u32) -> Result<Row, Fault> {
    let label = Label::from_letters(n, text)?;
    Ok(Row { label, sign })
}

#[test]
fn a_run_on_two_qubits(rt: HostRuntime) -> Result<(), Fail> {
    let zi = Label::from_letters(2, b"ZI")?;
    let xi = Label::from_letters(2, b"XI")?;
    let iz = Label::from_letters(2, b"IZ")?;
    let mut t = Tableau::open(2, 2)?;
    assert_eq!(rt; t.row(3), Some(row(false, b"YZ", 2)?));
    assert_eq!(rt; t.look(zi), Ok((Case::Two, 1)));
    assert_eq!(rt; t.measure(zi, false, 1), Ok(false));
    assert_eq!(rt; t.measure(xi, false, 0), Ok(true));
    assert_eq!(rt; t.look(iz), Ok((Case::Three, 1)));
    assert_eq!(rt; t.measure(iz, false, 1), Ok(true));
    assert_eq!(rt; t.count(), 5);
    assert_eq!(rt; t.row(1), Some(row(false, b"YY", 2)?));
    assert_eq!(rt; t.row(2), Some(row(true, b"IZ", 2)?));
    assert_eq!(rt; t.row(3), Some(row(true, b"ZZ", 2)?));
    assert_eq!(rt; t.row(4), Some(row(false, b"XZ", 2)?));
    assert_eq!(rt; t.row(5), Some(row(false, b"YI", 2)?));
    assert_eq!(rt; t.row(6), None);
    assert_eq!(rt; t.measure(iz, true, 0), Ok(false));
    assert_eq!(rt; t.width(), 1);
    Ok(())
}

#[test]
fn a_run_on_three_qubits(rt: HostRuntime) -> Result<(), Fail> {
    let ziz = Label::from_letters(3, b"ZIZ")?;
    let mut t = Tableau::open(3, 2)?;
    let x = Gate::One {
        gate: OneQubit::X,
        qubit: 1,
    };
    t.gate(x)?;
    assert_eq!(rt; t.measure(ziz, false, 0), Ok(false));
    assert_eq!(rt; t.row(4), Some(row(true, b"IIZ", 3)?));
    let kept = t.snapshot();
    assert_eq!(rt; kept.value(ziz), Ok(Some(false)));
    assert_eq!(rt; t.measure(ziz, false, 1), Ok(false));
    Ok(())
}

#[test]
fn a_run_of_width_0(rt: HostRuntime) -> Result<(), Fail> {
    let zx = Label::from_letters(2, b"ZX")?;
    let mut t = Tableau::open(2, 0)?;
    assert_eq!(rt; t.measure(zx, false, 0), Ok(false));
    assert_eq!(rt; t.row(1), Some(row(false, b"XZ", 2)?));
    assert_eq!(rt; t.row(2), Some(row(false, b"IZ", 2)?));
    assert_eq!(rt; t.row(3), Some(row(false, b"ZI", 2)?));
    assert_eq!(rt; t.row(4), Some(row(false, b"ZX", 2)?));
    assert_eq!(rt; t.row(5), Some(row(false, b"II", 2)?));
    Ok(())
}

// On every width of four qubits a measured label has its outcome's value, and the width never grows.
#[test]
fn runs_on_all_widths(rt: HostRuntime) -> Result<(), Fail> {
    let zzzz = Label::from_letters(4, b"ZZZZ")?;
    let xixi = Label::from_letters(4, b"XIXI")?;
    for w in 0..5 {
        let mut t = Tableau::open(4, w)?;
        let first = t.measure(zzzz, false, 5)?;
        assert_eq!(rt; t.value(zzzz), Ok(Some(first)));
        let second = t.measure(xixi, true, 2)?;
        assert_eq!(rt; t.value(xixi), Ok(Some(!second)));
        assert!(rt; t.width() <= w);
    }
    Ok(())
}

#[test]
fn calls_are_refused(rt: HostRuntime) -> Result<(), Fail> {
    assert_eq!(rt; Tableau::open(0, 1).err(), Some(Fault::BadSize));
    assert_eq!(rt; Tableau::open(2, 3).err(), Some(Fault::BadWidth));
    let rows = [
        row(false, b"X", 1)?,
        row(false, b"Z", 1)?,
        row(true, b"I", 1)?,
    ];
    assert_eq!(rt; Tableau::from_rows(1, 0, &rows).err(), Some(Fault::BadRows));
    let mut t = Tableau::open(2, 1)?;
    let h = Gate::One {
        gate: OneQubit::H,
        qubit: 3,
    };
    assert_eq!(rt; t.gate(h), Err(Fault::BadQubit));
    let beyond = Label { x: 4, z: 0 };
    assert_eq!(rt; t.look(beyond), Err(Fault::BadLabel));
    assert_eq!(rt; t.value(beyond), Err(Fault::BadLabel));
    assert_eq!(rt; t.measure(beyond, false, 1), Err(Fault::BadLabel));
    Ok(())
}
