use crate::keyed::KeyedTape;
use crate::tape::Tape;
use crate::words::WordTape;
use denial::{Fault, Layer};
use std::array;
use std::process::Abort;
use std::test::Fail;

/// Draws the words that are left, and sees that the tape is then spent.
fn gives_then_is_spent<T: Tape>(rt: &impl Abort, tape: &mut T, words: &[u32]) -> Result<(), Fail> {
    for word in words {
        assert!(rt; tape.more());
        assert_eq!(rt; tape.draw()?, *word);
    }
    assert!(rt; !tape.more());
    let Err(fault) = tape.draw() else {
        return Err(Fail::new("granted"));
    };
    assert_eq!(rt; fault.number(), 13);
    assert_eq!(rt; fault.layer(), Layer::Tape);
    assert_eq!(rt; fault.place(), None);
    Ok(())
}

#[test]
fn both_tapes_give_their_words(rt: HostRuntime) -> Result<(), Fail> {
    gives_then_is_spent(&rt, &mut WordTape::new(&[3, 1, 4]), &[3, 1, 4])?;
    // the key, the nonce and the block with block counter 1 of RFC 8439, section 2.3.2
    let key = array::from_fn(|i| i as u8);
    let mut tape = KeyedTape::new(key, [0, 0, 0, 9, 0, 0, 0, 0x4a, 0, 0, 0, 0], 19);
    for _ in 0..16 {
        assert!(rt; tape.draw().is_ok());
    }
    gives_then_is_spent(&rt, &mut tape, &[0xe4e7f110, 0x15593bd1, 0x1fdd0f50])
}
