// Tests of the keyboard.
use crate::{drain, offer_all, put_all, takes};
use console::{Console, Keyboard};
use std::test::Fail;

#[test]
fn all_slots_come_back(rt: HostRuntime) -> Result<(), Fail> {
    let mut keyboard = Keyboard::new(rt.alloc())?;
    assert!(rt; keyboard.take().is_none() && offer_all(&mut keyboard) == 256);
    assert!(rt; takes(&mut keyboard, 0, 100));
    assert!(rt; offer_all(&mut keyboard) == 100, "the ring wraps");
    assert!(rt; takes(&mut keyboard, 100, 256) && takes(&mut keyboard, 0, 100));
    assert!(rt; keyboard.take().is_none() && offer_all(&mut keyboard) == 256);
    Ok(())
}

#[test]
fn all_paper_comes_back(rt: HostRuntime) -> Result<(), Fail> {
    let mut keyboard = Keyboard::new(rt.alloc())?;
    assert!(rt; put_all(&mut keyboard) == 4096 && keyboard.printed() == 4096);
    assert!(rt; keyboard.pull() == Some(0) && put_all(&mut keyboard) == 1);
    assert!(rt; drain(&mut keyboard) == 4096 && keyboard.pull().is_none());
    assert!(rt; put_all(&mut keyboard) == 4096);
    Ok(())
}

#[test]
fn a_keyboard_gives_one_back(rt: HostRuntime) {
    assert!(rt; <Keyboard as Console>::figures() == (1, 1));
}
