// The worked examples, and each refusal of this crate.
use crate::fault::Fault;
use crate::gate::{Gate, OneQubit};
use crate::label::Label;
use crate::letter::Letter;
use crate::row::Row;
use std::test::Fail;

fn plus(label: Label) -> Row {
    Row { label, sign: false }
}

fn minus(label: Label) -> Row {
    Row { label, sign: true }
}

#[test]
fn xx_times_zz_is_minus_yy(rt: HostRuntime) -> Result<(), Fail> {
    let xx = Label::from_letters(2, b"XX")?;
    let zz = Label::from_letters(2, b"ZZ")?;
    let yy = Label::from_letters(2, b"YY")?;
    assert_eq!(rt; plus(xx).product(plus(zz)), Some(minus(yy)));
    assert_eq!(rt; xx.product_sign(zz), Some(true));
    let xi = Label::from_letters(2, b"XI")?;
    assert_eq!(rt; plus(xi).product(plus(zz)), None, "they anticommute");
    Ok(())
}

#[test]
fn gates_carry_rows(rt: HostRuntime) -> Result<(), Fail> {
    let mut y = plus(Label::from_letters(1, b"Y")?);
    y.apply(
        1,
        Gate::One {
            gate: OneQubit::H,
            qubit: 1,
        },
    )?;
    assert_eq!(rt; y, minus(Label::from_letters(1, b"Y")?));
    let mut xz = plus(Label::from_letters(2, b"XZ")?);
    xz.apply(
        2,
        Gate::Cx {
            control: 1,
            target: 2,
        },
    )?;
    assert_eq!(rt; xz, minus(Label::from_letters(2, b"YY")?));
    Ok(())
}

#[test]
fn gates_are_refused(rt: HostRuntime) -> Result<(), Fail> {
    let start = plus(Label::from_letters(2, b"XZ")?);
    let mut row = start;
    let h = Gate::One {
        gate: OneQubit::H,
        qubit: 3,
    };
    assert_eq!(rt; row.apply(2, h), Err(Fault::BadQubit));
    assert_eq!(rt; row.apply(65, h), Err(Fault::BadSize));
    assert_eq!(rt;
        row.apply(
            2,
            Gate::Cx {
                control: 0,
                target: 0,
            },
        ),
        Err(Fault::BadQubit)
    );
    assert_eq!(rt;
        row.apply(
            2,
            Gate::Cx {
                control: 2,
                target: 2,
            },
        ),
        Err(Fault::SameQubit)
    );
    assert_eq!(rt; row, start, "a refusal leaves the row");
    Ok(())
}

#[test]
fn letters_are_read_and_written(rt: HostRuntime) -> Result<(), Fail> {
    let a = Label::from_letters(4, b"IXYZ")?;
    assert_eq!(rt; a, Label { x: 6, z: 12 });
    assert_eq!(rt; a.letter(3), Ok(Letter::Y));
    assert_eq!(rt; a.letter(0), Err(Fault::BadQubit));
    assert_eq!(rt; Label::from_letters(4, b"IXYz"), Err(Fault::BadForm));
    assert_eq!(rt; Label::from_letters(65, b"IXYZ"), Err(Fault::BadSize));
    assert_eq!(rt; Label::from_letters(3, b"IXYZ"), Err(Fault::BadLabel));
    let mut page = [46u8; 5];
    assert_eq!(rt; a.write_letters(4, &mut page), Ok(4));
    assert_eq!(rt; page, *b"IXYZ.");
    assert_eq!(rt; a.write_letters(3, &mut page), Err(Fault::BadLabel));
    assert_eq!(rt; a.write_letters(6, &mut page), Err(Fault::ShortBuffer));
    assert_eq!(rt; a.write_letters(0, &mut page), Err(Fault::BadSize));
    assert_eq!(rt; page, *b"IXYZ.", "a refusal leaves the buffer");
    Ok(())
}
