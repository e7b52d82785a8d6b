//! Two days: other bookings on the same tape, and a store resumed after each.
use crate::booked::booked;
use crate::keys::show_keys;
use crate::tally::Tally;
use crate::trouble::Trouble;
use bookings::calls::{calls_of_day, push_reads};
use bookings::days::{BEATS, BLOCKS, FIRST_DAY, IMAGE_LEN, PLACES, SECOND_DAY};
use bookings::keyed::run_keyed;
use console::bytes::Text;
use console::files::{read_file, replace_file};
use example::booking::Booking;
use example::keys::EXAMPLE_KEYS;
use lines::reply::Reply;
use runs::calls::{Answer, Call, Granted, Making};
use runs::compare::{Verdict, compare};
use runs::transcript::{Ran, Transcript};
use std::alloc::{AllocError, Global};

/// Prints a call and its answer.
fn show_call(rt: &HostRuntime, asked: Call<'_>, answer: &Answer) -> Result<(), Trouble<'static>> {
    let reply = Reply(answer);
    match (asked, answer) {
        (_, Err(denial)) => return Err(Trouble::Denied(*denial)),
        (Call::Write(block, value), _) => {
            println!(rt; "  write {block} {}: {reply}", Text(value))?;
        }
        (Call::Read(block, _), Ok(Granted::Valued(value))) => {
            println!(rt; "  read {block}: {}", Text(value.as_slice()))?;
        }
        (Call::Beat, _) => println!(rt; "  beat: {reply}")?,
        (_, _) => {}
    }
    Ok(())
}

/// A block that is read holds what was booked last.
fn check_read(
    day: &[Option<Booking>],
    asked: Call<'_>,
    answer: &Answer,
) -> Result<(), Trouble<'static>> {
    match (asked, answer) {
        (Call::Read(block, _), Ok(Granted::Valued(value)))
            if value.as_slice() != booked(day, block).as_slice() => {
            Err(Trouble::OtherBooking(block))
        }
        _ => Ok(()),
    }
}

/// Prints and checks what the calls answered.
fn take_answers(
    rt: &HostRuntime,
    day: &[Option<Booking>],
    calls: &[Call<'_>],
    answers: &[Answer],
) -> Result<(), Trouble<'static>> {
    for (asked, answer) in calls.iter().zip(answers.iter()) {
        show_call(rt, *asked, answer)?;
        check_read(day, *asked, answer)?;
    }
    Ok(())
}

/// The map file that the calls saved last.
fn saved_file(heap: Global, answers: &[Answer]) -> Result<Vec<u8>, AllocError> {
    let last = answers.iter().rev().find_map(|answer| match answer {
        Ok(granted) => granted.map_file(),
        Err(_) => None,
    });
    Vec::from_slice(heap, last.unwrap_or_default())
}

/// What a day leaves.
#[derive(Drop)]
pub(crate) struct Booked {
    /// The card's image.
    pub image: Vec<u8>,
    /// The map file.
    pub map: Vec<u8>,
    pub transcript: Transcript,
}

/// A day from a fresh format.
pub(crate) fn book_day(
    rt: &HostRuntime,
    day: &[Option<Booking>],
) -> Result<Booked, Trouble<'static>> {
    let heap = rt.alloc();
    let mut image = vec![in heap; 0; IMAGE_LEN]?;
    let calls = calls_of_day(heap, day)?;
    let calls = calls.as_slice();
    let making = Making::Format(BLOCKS);
    let Ran { store, transcript } = run_keyed(
        heap,
        &EXAMPLE_KEYS,
        image.as_mut_slice(),
        BEATS,
        &making,
        calls,
    );
    store.answer()?;
    drop(store);
    println!(rt; "  format {BLOCKS}: granted")?;
    let transcript = transcript?;
    take_answers(rt, day, calls, transcript.notes.answers.as_slice())?;
    let map = saved_file(heap, transcript.notes.answers.as_slice())?;
    Ok(Booked {
        image,
        map,
        transcript,
    })
}

/// A second store, resumed from card and map, reads every block again. `resumed` says where they come from.
pub(crate) fn read_again(
    rt: &HostRuntime,
    day: &[Option<Booking>],
    image: &mut [u8],
    map: &[u8],
    resumed: &str,
) -> Result<(), Trouble<'static>> {
    let heap = rt.alloc();
    let mut reads = Vec::new(heap);
    push_reads(&mut reads)?;
    let reads = reads.as_slice();
    let making = Making::Resume(map);
    let Ran { store, transcript } = run_keyed(heap, &EXAMPLE_KEYS, image, 0, &making, reads);
    store.answer()?;
    drop(store);
    println!(rt; "  resumed from {resumed}")?;
    take_answers(rt, day, reads, transcript?.notes.answers.as_slice())
}

/// Whether two days show the same faces, which must be so.
fn compare_days(
    rt: &HostRuntime,
    first: &Transcript,
    second: &Transcript,
) -> Result<(), Trouble<'static>> {
    let beats = first.notes.places.len();
    match compare(first, second) {
        Verdict::SameFaces => println!(rt;
            "both days show the same face after each of the {beats} beats"
        )?,
        Verdict::OtherFaces => return Err(Trouble::OtherFaces),
        Verdict::BegunApart => return Err(Trouble::BegunApart),
    }
    println!(rt; "done: two days booked, read back, saved, resumed and read again")?;
    Ok(())
}

/// Runs two days, and compares what they show to who copies the card.
pub(crate) fn run_both<'a, F, G>(
    rt: &HostRuntime,
    first_day: F,
    second_day: G,
) -> Result<(), Trouble<'a>>
where
    F: FnOnce() -> Result<Transcript, Trouble<'a>>,
    G: FnOnce() -> Result<Transcript, Trouble<'a>>,
    requires first { F.IsAlwaysCallable first_day }
    requires second { G.IsAlwaysCallable second_day }
{
    show_keys(rt, &EXAMPLE_KEYS)?;
    println!(rt; "first day:")?;
    let first = first_day()?;
    println!(rt; "second day, other bookings on the same tape:")?;
    let second = second_day()?;
    compare_days(rt, &first, &second)?;
    Ok(())
}

/// The card file and the map file beside it.
#[derive(Clone, Copy)]
struct Paths<'a> {
    card: &'a str,
    map: &'a str,
}

/// Books a day, leaves card and map in their files, and reads the day again from these.
fn run_day<'a>(
    rt: &HostRuntime,
    paths: Paths<'a>,
    day: &[Option<Booking>],
) -> Result<Transcript, Trouble<'a>> {
    let Booked {
        image,
        map,
        transcript,
    } = book_day(rt, day)?;
    replace_file(rt, paths.card, image.as_slice())?;
    replace_file(rt, paths.map, map.as_slice())?;
    let mut image = read_file(rt, paths.card)?;
    let map = read_file(rt, paths.map)?;
    read_again(
        rt,
        day,
        image.as_mut_slice(),
        map.as_slice(),
        "the card file and the map file",
    )?;
    Tally::of(transcript.notes.answers.as_slice()).show(rt)?;
    let sealings = transcript.notes.sealings.len();
    println!(rt; "  {sealings} sealings, the first {PLACES} by format")?;
    Ok(transcript)
}

/// Runs both days on files.
pub(crate) fn run_days<'a>(
    rt: &HostRuntime,
    card: &'a str,
    map: &'a str,
) -> Result<(), Trouble<'a>> {
    println!(rt;
        "{card}: a card of {PLACES} places for {BLOCKS} blocks, {BEATS} beats a day; its map goes to {map}"
    )?;
    let paths = Paths { card, map };
    run_both(
        rt,
        || run_day(rt, paths, &FIRST_DAY),
        || run_day(rt, paths, &SECOND_DAY),
    )
}
