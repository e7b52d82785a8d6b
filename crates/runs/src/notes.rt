ghost use Rattle.std.specs.Prelude.{◌≡◌, List, map, length, IfOk, OnOk};
ghost use Rattle.layout.specs.Numbers.{Bytes};
ghost use Rattle.machine.specs.Makings.{call as call_of};
ghost use Rattle.machine.specs.Runs.{format_sealings};
ghost use Rattle.runs.specs.Told.{making_told, call_told, answer_told};
ghost use Rattle.runs.specs.Shown.{begun_told, begun_of, sealing_told, first_sealings, face_on, BeatNoted, CallNoted};

use crate::calls::{Answer, Call, Granted, Making};
use crate::perform::perform;
use crate::transcript::{Begun, Notes, Sealing};
use card::card::Card;
use layout::names::Place;
use seal::seal::Seal;
use std::alloc::{AllocError, Global};
use store::state::Store;
use tape::tape::Tape;

/// How a run on the store begins.
pub(crate) fn note_beginning<C: Card, S: Seal, T: Tape>(
    heap: Global,
    store: &Store<C, S, T>,
) -> Result<Option<Begun>, AllocError>
    ensures { IfOk result (λ b. begun_told b ≡ begun_of store.now.store) }
{
    let Some(counter) = store.last_counter() else {
        return Ok(None);
    };
    let face = face_of(heap, store)?;
    Ok(Some(Begun { face, counter }))
}

/// A granted making's sealings, on a card of so many places.
pub(crate) fn note_making<C: Card, S: Seal, T: Tape>(
    heap: Global,
    store: &Store<C, S, T>,
    making: &Making,
    count: u32,
) -> Result<Vec<Sealing>, AllocError>
    ensures { IfOk result (λ v. (card : List Bytes) → length card ≡ count → map sealing_told v.items ≡ first_sealings store.now.store (making_told making.now) card) }
{
    match making {
        Making::Format(_) => match store.answer() {
            Ok(()) => note_format(heap, count),
            Err(_) => Ok(Vec::new(heap)),
        },
        Making::Resume(_) => Ok(Vec::new(heap)),
    }
}

/// Format's sealings: a dummy at each place, under the counters from 1 on.
fn note_format(heap: Global, count: u32) -> Result<Vec<Sealing>, AllocError>
    ensures { IfOk result (λ v. (card : List Bytes) → length card ≡ count → map sealing_told v.items ≡ format_sealings 0 card) }
{
    let mut sealings = Vec::new(heap);
    // As a chain of the places and the counters the proof does not close.
    for i in 0..count {
        sealings.push(Sealing {
            place: Place(i),
            counter: i + 1,
        })?;
    }
    Ok(sealings)
}

/// The card's face.
fn face_of<C: Card, S: Seal, T: Tape>(
    heap: Global,
    store: &Store<C, S, T>,
) -> Result<Vec<u32>, AllocError>
    ensures { IfOk result (λ v. v.items ≡ face_on store.now.store) }
{
    let mut face = vec![in heap; 0u32; store.places() as usize]?;
    let _ = store.face(&mut face);
    Ok(face)
}

/// What a granted beat adds to the notes.
fn note_beat<C: Card, S: Seal, T: Tape>(
    heap: Global,
    store: &Store<C, S, T>,
    answer: &Answer,
    notes: &mut Notes,
) -> Result<(), AllocError>
    ensures { OnOk result (BeatNoted (answer_told answer.now) store.now.store notes.old notes.new) }
{
    let Ok(Granted::Beaten(beat)) = answer else {
        return Ok(());
    };
    notes.faces.push(face_of(heap, store)?)?;
    notes.places.push(beat.place)?;
    notes.sealings.push(Sealing {
        place: beat.place,
        counter: beat.counter,
    })?;
    Ok(())
}

/// Makes one call, and adds what it shows to the notes.
pub(crate) fn note_call<C: Card, S: Seal, T: Tape>(
    heap: Global,
    store: &mut Store<C, S, T>,
    call: &Call,
    notes: &mut Notes,
) -> Result<(), AllocError>
    ensures step { CallNoted call.now (call_of (S.Seal.rules store.old.seal) store.old.store (call_told call.now)) store.old.store store.new.store notes.old notes.new result }
    ensures seal { store.new.seal ≡ store.old.seal }
{
    let answer = perform(heap, store, call)?;
    note_beat(heap, store, &answer, notes)?;
    notes.answers.push(answer)?;
    Ok(())
}
