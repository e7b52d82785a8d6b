//! The demonstration: both days in memory, with no file.
use crate::days::{Booked, book_day, read_again, run_both};
use crate::tally::Tally;
use crate::trouble::Trouble;
use bookings::days::{BEATS, BLOCKS, FIRST_DAY, PLACES, SECOND_DAY};
use example::booking::Booking;
use lines::reply::Reply;
use runs::transcript::Transcript;
use std::io;

/// Prints the day's last answer, which is that of its save, and what the day comes to.
fn show_day(rt: &HostRuntime, transcript: &Transcript) -> io::Result<()> {
    if let Some(saved) = transcript.notes.answers.last() {
        let reply = Reply(saved);
        println!(rt; "  save: {reply}")?;
    }
    let Tally {
        writes,
        landed,
        again,
        dummies,
    } = Tally::of(transcript.notes.answers.as_slice());
    let beats = transcript.notes.places.len();
    let sealings = transcript.notes.sealings.len();
    println!(rt; "  {writes} writes and {beats} beats granted")?;
    println!(rt; "  {landed} landed, {again} sealed again, {dummies} dummies")?;
    println!(rt; "  {sealings} sealings, {PLACES} of them by format")
}

/// Books a day, and reads it again by a store that is resumed.
fn run_day(rt: &HostRuntime, day: &[Option<Booking>]) -> Result<Transcript, Trouble<'static>> {
    let Booked {
        mut image,
        map,
        transcript,
    } = book_day(rt, day)?;
    show_day(rt, &transcript)?;
    read_again(
        rt,
        day,
        image.as_mut_slice(),
        map.as_slice(),
        "the map file and the card: granted",
    )?;
    Ok(transcript)
}

/// Runs both days.
pub(crate) fn run_demonstration(rt: &HostRuntime) -> Result<(), Trouble<'static>> {
    println!(rt; "a card of {PLACES} places, {BLOCKS} blocks, {BEATS} beats a day")?;
    run_both(rt, || run_day(rt, &FIRST_DAY), || run_day(rt, &SECOND_DAY))
}
