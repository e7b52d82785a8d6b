use crate::calls::calls_of_day;
use crate::days::{BEATS, BLOCKS, FIRST_DAY, IMAGE_LEN};
use crate::keyed::run_keyed;
use example::keys::EXAMPLE_KEYS;
use layout::names::Block;
use layout::values::filled;
use runs::calls::{Call, Granted, Making};
use std::test::Fail;

#[test]
fn a_day_goes_through_under_keys(rt: HostRuntime) -> Result<(), Fail> {
    let heap = rt.alloc();
    let calls = calls_of_day(heap, &FIRST_DAY)?;
    let mut image = [0; IMAGE_LEN];
    let making = Making::Format(BLOCKS);
    let run = run_keyed(
        heap,
        &EXAMPLE_KEYS,
        &mut image,
        BEATS,
        &making,
        calls.as_slice(),
    );
    assert_eq!(rt; run.store.answer().is_ok(), true);
    let notes = run.transcript?.notes;
    assert_eq!(rt; notes.answers.len(), calls.len());
    assert_eq!(rt; notes.faces.len(), BEATS as usize);
    for (call, answer) in calls.iter().zip(notes.answers.iter()) {
        assert!(rt; answer.is_ok());
        if let (Call::Read(Block(0), _), Ok(Granted::Valued(value))) = (call, answer) {
            let booked = filled(b"M4XD Jonas Falk, room 3, one night");
            assert_eq!(rt; value.as_slice(), booked.as_slice());
        }
    }
    Ok(())
}
