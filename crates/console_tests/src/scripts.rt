// Tests of the script.
use crate::{drain, put_all};
use console::{Console, Script};

#[test]
fn a_text_may_be_empty(rt: HostRuntime) {
    let mut paper = [0; 3];
    let mut script = Script::new(b"", &mut paper);
    assert!(rt; script.take().is_none() && script.offer(1).is_err());
    assert!(rt; put_all(&mut script) == 3 && script.printed() == 3);
    assert!(rt;
        script.pull() == Some(0) && script.put(9).is_err(),
        "paper does not come back"
    );
    assert!(rt; drain(&mut script) == 2);
}

#[test]
fn paper_may_be_empty(rt: HostRuntime) {
    let mut paper = [];
    let mut script = Script::new(b"ab", &mut paper);
    assert!(rt; script.put(1).is_err() && script.printed() == 0 && script.pull().is_none());
    assert!(rt;
        script.take() == Some(b'a') && script.take() == Some(b'b') && script.take().is_none()
    );
}

#[test]
fn a_script_gives_nothing_back(rt: HostRuntime) {
    assert!(rt; <Script<'_> as Console>::figures() == (0, 0));
}
