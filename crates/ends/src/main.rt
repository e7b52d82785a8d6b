//! Bookings on two cards at once: sealed at drawn places, opened again, and denied where they must be.
#![tactic(auto)]

mod bookings;
mod desk;
mod drawing;
mod trials;
mod trouble;

use bookings::BOOKINGS;
use card::byte::ByteCard;
use card::card::Card;
use card::split::SplitCard;
use card::window::WindowCard;
use console::bytes::{Hex, Text};
use desk::{Desk, Entry, Kept};
use drawing::draw_place;
use example::keys::{EXAMPLE_KEYS, Keys};
use layout::body::Body;
use layout::names::Place;
use seal::seal::Seal;
use std::collections::BTreeMap;
use std::io;
use tape::tape::Tape;
use trials::denials;
use trouble::Trouble;

/// The even places lie on an image of 6 records.
const EVEN_IMAGE: usize = 384;

/// The odd places lie on an image of 8 records, of which a window shows 6.
const ODD_IMAGE: usize = 512;

const WINDOW_START: u32 = 1;

const WINDOW_LEN: u32 = 6;

/// A word of the tape for each booking, and no more.
const WORDS: u32 = 8;

/// Prints keys. A key in use stays secret; these are examples.
fn show_keys(rt: &HostRuntime, keys: &Keys) -> io::Result<()> {
    let body = Hex(&keys.body);
    let tag = Hex(&keys.tag);
    let tape = Hex(&keys.tape);
    let nonce = Hex(&keys.nonce);
    println!(rt; "keys of the example: body {body}")?;
    println!(rt; "  tag {tag}")?;
    println!(rt; "  tape {tape} nonce {nonce}")
}

/// Seals every booking at a place off the tape, and lists what should then be on the card, by place.
fn seal_all<C: Card, S: Seal, T: Tape>(
    rt: &HostRuntime,
    desk: &mut Desk<C, S>,
    tape: &mut T,
) -> anyhow::Result<BTreeMap<Place, Entry>> {
    let mut entries = BTreeMap::new(rt.alloc());
    for (booking, counter) in BOOKINGS.iter().zip(1u32..) {
        let drawn = draw_place(tape, desk.card.count())?;
        let entry = Entry {
            at: drawn.at,
            kept: Kept {
                counter,
                body: Body {
                    block: booking.block,
                    value: booking.value(),
                },
            },
        };
        let record = desk.keep(&entry)?;
        println!(rt;
            "word {:08x}: place {} counter {counter}: {}",
            drawn.word, drawn.at, booking.text
        )?;
        println!(rt; "  {}", Hex(&record))?;
        // A later record replaces an earlier one, on the card and in the list.
        if let Some(old) = entries.insert(drawn.at, entry)? {
            println!(rt; "  replaces counter {}", old.kept.counter)?;
        }
    }
    Ok(entries)
}

/// Opens each place that was written, and compares what it finds with the list.
fn open_all<C: Card, S: Seal>(
    rt: &HostRuntime,
    desk: &Desk<C, S>,
    entries: &BTreeMap<Place, Entry>,
) -> anyhow::Result<()> {
    for entry in entries.values() {
        let opened = desk.open_at(entry.at)?;
        if opened != entry.kept {
            return Err(Trouble::Differs(entry.at).into());
        }
        let Kept { counter, body } = opened;
        println!(rt;
            "opened place {}: counter {counter} block {}: {}",
            entry.at,
            body.block,
            Text(&body.value)
        )?;
    }
    Ok(())
}

/// Prints the clear counter of each place, in place order.
fn show_face<C: Card, S: Seal>(rt: &HostRuntime, desk: &Desk<C, S>) -> anyhow::Result<()> {
    print!(rt; "face")?;
    for place in 0..desk.card.count() {
        let counter = desk.face_at(Place(place))?;
        print!(rt; " {counter}")?;
    }
    println!(rt; "")?;
    Ok(())
}

/// Tries what must be denied, prints the denials, and says how many there are.
fn show_denials<C: Card, S: Seal, T: Tape>(
    rt: &HostRuntime,
    desk: &Desk<C, S>,
    tape: &mut T,
    entries: &BTreeMap<Place, Entry>,
) -> anyhow::Result<usize> {
    let Some(first) = entries.values().next() else {
        return Err(Trouble::NothingSealed.into());
    };
    let trials = denials(desk, tape, first)?;
    for trial in trials {
        println!(rt; "{}: {}", trial.attempt, trial.denied)?;
    }
    Ok(trials.len())
}

fn run(rt: &HostRuntime) -> anyhow::Result<()> {
    let heap = rt.alloc();
    let keys = EXAMPLE_KEYS;
    show_keys(rt, &keys)?;
    let mut even_image = vec![in heap; 0; EVEN_IMAGE]?;
    let mut odd_image = vec![in heap; 0; ODD_IMAGE]?;
    let even = ByteCard::new(even_image.as_mut_slice());
    let odd = WindowCard::new(
        ByteCard::new(odd_image.as_mut_slice()),
        WINDOW_START,
        WINDOW_LEN,
    );
    let mut desk = Desk {
        card: SplitCard::new(even, odd),
        seal: keys.seal(),
    };
    let mut tape = keys.tape(WORDS);
    let count = desk.card.count();
    println!(rt; "a card of {count} places: a card of 6 and a window on a card of 8, split")?;
    let entries = seal_all(rt, &mut desk, &mut tape)?;
    open_all(rt, &desk, &entries)?;
    show_face(rt, &desk)?;
    let denied = show_denials(rt, &desk, &mut tape, &entries)?;
    let sealed = BOOKINGS.len();
    // Each was opened and compared, or the run would have stopped.
    let opened = entries.len();
    println!(rt; "done: {sealed} sealed, {opened} opened, {opened} compared, {denied} denied")?;
    Ok(())
}

fn main(rt: HostRuntime) -> anyhow::Result<()> {
    run(&rt)
}
