use crate::register::Register;
use crate::source::{CoinSource, draw_word};
use crate::text::TextCoins;
use std::test::Fail;

#[test]
fn a_text_gives_its_digits(rt: HostRuntime) -> Result<(), Fail> {
    let mut coins = TextCoins::over(b"101")?;
    assert_eq!(rt; coins.left(), 3);
    assert_eq!(rt; coins.draw(), Some(true));
    assert_eq!(rt; coins.draw(), Some(false));
    assert_eq!(rt; coins.draw(), Some(true));
    assert_eq!(rt; coins.draw(), None);
    Ok(())
}

#[test]
fn other_bytes_are_refused(rt: HostRuntime) -> Result<(), Fail> {
    assert!(rt; TextCoins::over(b"10,1").is_err());
    assert!(rt; TextCoins::over(b"2").is_err());
    assert_eq!(rt; TextCoins::over(b"")?.left(), 0);
    Ok(())
}

// 45 holds the bits 0, 2, 3 and 5. It goes to 22, 32779, 16389 and 8194.
#[test]
fn a_register_gives_its_lowest_bits(rt: HostRuntime) -> Result<(), Fail> {
    let mut coins = Register::new(45, 5)?;
    assert_eq!(rt; coins.draw(), Some(true));
    assert_eq!(rt; coins.draw(), Some(false));
    assert_eq!(rt; coins.draw(), Some(true));
    assert_eq!(rt; coins.draw(), Some(true));
    assert_eq!(rt; coins.left(), 1);
    assert_eq!(rt; coins.draw(), Some(false));
    assert_eq!(rt; coins.draw(), None);
    Ok(())
}

#[test]
fn a_register_does_not_start_at_zero(rt: HostRuntime) {
    assert!(rt; Register::new(0, 5).is_err());
}

#[test]
fn a_word_takes_the_first_coin_lowest_or_draws_none(rt: HostRuntime) -> Result<(), Fail> {
    let mut coins = Register::new(45, 5)?;
    assert_eq!(rt; draw_word(&mut coins, 6), None);
    assert_eq!(rt; draw_word(&mut coins, 65), None);
    assert_eq!(rt; draw_word(&mut coins, 5), Some(13));
    assert_eq!(rt; draw_word(&mut coins, 0), Some(0));
    Ok(())
}
