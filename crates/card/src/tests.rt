use crate::byte::ByteCard;
use crate::card::Card;
use crate::fault::CardFault;
use crate::split::SplitCard;
use crate::window::WindowCard;
use denial::{Fault, Layer};
use layout::names::Place;
use std::process::Abort;
use std::test::Fail;

#[test]
fn layers_go_on_layers(rt: HostRuntime) -> Result<(), Fail> {
    // three whole records and ten bytes more; five records, of which the window shows four
    let mut first = [0; 202];
    let mut second = [0; 320];
    let window = WindowCard::new(ByteCard::new(&mut second), 1, 9);
    let mut card = SplitCard::new(ByteCard::new(&mut first), window);
    assert_eq!(rt; card.count(), 6);
    card.put(Place(5), &[9; 64])?;
    let mut buffer = [0; 64];
    card.get(Place(5), &mut buffer)?;
    assert!(rt; buffer[63] == 9);
    // place 5 is the window's place 2, which is the second's place 3
    assert!(rt; first[128] == 0 && second[192] == 9);
    Ok(())
}

#[test]
fn the_place_is_tested_before_the_size(rt: HostRuntime) -> Result<(), Fail> {
    let mut bytes = [0; 256];
    let mut card = WindowCard::new(ByteCard::new(&mut bytes), 1, 2);
    let mut short = [5; 63];
    tells(&rt, card.get(Place(2), &mut short), 15, Some(Place(2)))?;
    tells(&rt, card.get(Place(1), &mut short), 16, None)?;
    tells(&rt, card.put(Place(2), &short), 15, Some(Place(2)))?;
    tells(&rt, card.put(Place(1), &short), 16, None)
}

// A crate for one helper of three tests would be no plainer.
fn tells(
    rt: &impl Abort,
    answer: Result<(), CardFault>,
    number: u32,
    place: Option<Place>,
) -> Result<(), Fail> {
    let Err(fault) = answer else {
        return Err(Fail::new("granted"));
    };
    assert_eq!(rt; fault.number(), number);
    assert_eq!(rt; fault.layer(), Layer::Card);
    assert_eq!(rt; fault.place(), place);
    Ok(())
}
