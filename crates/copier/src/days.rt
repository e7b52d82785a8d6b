//! The two days of bookings, under the hiding store and under a plain one, and their picture.
use crate::picture::Picture;
use crate::strip::Mark;
use crate::trouble::Trouble;
use answers::denials::Denial;
use bookings::calls::calls_of_day;
use bookings::days::{BEATS, BLOCKS, FIRST_DAY, HOURLY, IMAGE_LEN, SECOND_DAY};
use bookings::keyed::run_keyed;
use console::files::replace_file;
use example::booking::Booking;
use example::keys::EXAMPLE_KEYS;
use runs::calls::{Call, Making};
use runs::compare::{Verdict, compare};
use runs::transcript::{Ran, Transcript};
use std::alloc::{AllocError, Global};

/// A day's calls of the hiding store, on an empty card: what they show.
fn run_day(heap: Global, calls: &[Call<'_>]) -> Result<Transcript, Denial> {
    let mut image = [0; IMAGE_LEN];
    let making = Making::Format(BLOCKS);
    let Ran { store, transcript } = run_keyed(
        heap,
        &EXAMPLE_KEYS,
        &mut image,
        BEATS,
        &making,
        calls,
    );
    store.answer()?;
    Ok(transcript?)
}

/// The hiding store's marks: one a beat, at the beat's place.
fn hidden_marks(heap: Global, shown: &Transcript) -> Result<Vec<Mark>, AllocError> {
    let places = shown.notes.places.iter().enumerate();
    let marks = places.map(|(beat, place)| Mark {
        beat,
        place: place.0,
    });
    marks.collect(heap)
}

/// A plain store's marks: each booking at once, in its block's own place, as its hour begins.
fn plain_marks(heap: Global, day: &[Option<Booking>]) -> Result<Vec<Mark>, AllocError> {
    let hours = (0usize..).step_by(HOURLY as usize).zip(day);
    let marks = hours.filter_map(|(beat, booking)| {
        booking.map(|booking| Mark {
            beat,
            place: booking.block.0,
        })
    });
    marks.collect(heap)
}

/// Draws two days in a file, and tells what the copier sees of them.
fn draw<'a>(
    rt: &HostRuntime,
    path: &'a str,
    day: &[Option<Booking>],
    other_day: &[Option<Booking>],
) -> Result<(), Trouble<'a>> {
    let heap = rt.alloc();
    let calls = calls_of_day(heap, day)?;
    let other_calls = calls_of_day(heap, other_day)?;
    let first = run_day(heap, calls.as_slice())?;
    let second = run_day(heap, other_calls.as_slice())?;
    let Verdict::SameFaces = compare(&first, &second) else {
        return Err(Trouble::OtherFaces);
    };
    let hidden = hidden_marks(heap, &first)?;
    let hidden_again = hidden_marks(heap, &second)?;
    let plain = plain_marks(heap, day)?;
    let plain_other = plain_marks(heap, other_day)?;
    let picture = Picture {
        hidden: [hidden.as_slice(), hidden_again.as_slice()],
        plain: [plain.as_slice(), plain_other.as_slice()],
    };
    let drawn = format!(in heap; "{picture}")?;
    replace_file(rt, path, drawn.as_bytes())?;
    let (beats, one, other) = (hidden.len(), plain.len(), plain_other.len());
    println!(rt; "{path}: two days with different bookings, as the copier sees them")?;
    println!(rt;
        "hiding store: the same {beats} marks on both days; they come from the tape alone"
    )?;
    println!(rt;
        "plain store: {one} marks on the first day, {other} on the second; they tell who came"
    )?;
    Ok(())
}

/// Draws the two days of the bookings.
pub(crate) fn draw_days<'a>(rt: &HostRuntime, path: &'a str) -> Result<(), Trouble<'a>> {
    draw(rt, path, &FIRST_DAY, &SECOND_DAY)
}
