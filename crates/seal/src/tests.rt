use crate::bench::BenchSeal;
use crate::fault::SealFault;
use crate::seal::Seal;
use crate::street::StreetSeal;
use denial::{Fault, Layer};
use layout::names::Place;
use std::process::Abort;
use std::test::Fail;

// A crate for one helper of three tests would be no plainer.
fn tells<T: Drop>(
    rt: &impl Abort,
    name: &str,
    answer: Result<T, SealFault>,
    number: u32,
    place: Option<Place>,
) -> Result<(), Fail> {
    let Err(fault) = answer else {
        return Err(Fail::new("granted"));
    };
    assert_eq!(rt; fault.number(), number, "{name}");
    assert_eq!(rt; fault.layer(), Layer::Seal, "{name}");
    assert_eq!(rt; fault.place(), place, "{name}");
    Ok(())
}

fn opens_again_or_denies<S: Seal>(rt: &impl Abort, name: &str, seal: &S) -> Result<(), Fail> {
    let body = [7; 52];
    let mut bytes = [0; 64];
    let mut opened = [0; 52];
    seal.seal(Place(5), 258, &body, &mut bytes)?;
    assert_eq!(rt; &bytes[0..4], [2, 1, 0, 0].as_slice(), "{name}");
    assert_eq!(rt; seal.open(Place(5), &bytes, &mut opened)?, 258, "{name}");
    assert_eq!(rt; opened, body, "{name}");
    tells(
        rt,
        name,
        seal.open(Place(6), &bytes, &mut opened),
        17,
        Some(Place(6)),
    )?;
    bytes[63] ^= 1;
    tells(
        rt,
        name,
        seal.open(Place(5), &bytes, &mut opened),
        17,
        Some(Place(5)),
    )?;
    tells(
        rt,
        name,
        seal.open(Place(5), &bytes[0..63], &mut opened),
        16,
        None,
    )?;
    tells(
        rt,
        name,
        seal.seal(Place(5), 1, &body[0..51], &mut bytes),
        16,
        None,
    )
}

#[test]
fn both_seals_open_what_they_sealed(rt: HostRuntime) -> Result<(), Fail> {
    opens_again_or_denies(&rt, "the bench seal", &BenchSeal)?;
    opens_again_or_denies(&rt, "the street seal", &StreetSeal::new([1; 32], [2; 16]))
}
