ghost use Rattle.std.specs.Prelude.{◌≡◌, List, length, IfOk};
ghost use Rattle.layout.specs.Numbers.{Bytes};
ghost use Rattle.machine.specs.Makings.{make as make_of};
ghost use Rattle.store.specs.Made.{MadeBy};
ghost use Rattle.runs.specs.Told.{making_told};
ghost use Rattle.runs.specs.Carried.{CarriedOut, notes_in};
ghost use Rattle.runs.specs.Shown.{notes_told, first_shown, Followed};
ghost use Rattle.runs.specs.Witness.{ShownByAStore};

use crate::bytes::of_bytes;
use crate::calls::{Call, Making};
use crate::notes::{note_beginning, note_call, note_making};
use crate::transcript::{Notes, Ran, Transcript};
use card::card::Card;
use engine::state::Ends;
use seal::seal::Seal;
use std::alloc::{AllocError, Global};
use store::state::Store;
use tape::tape::Tape;

/// Makes a store and makes a list of calls on it; answers the store after them and the transcript of what was shown.
pub fn run<C: Card, S: Seal, T: Tape>(
    heap: Global,
    ends: Ends<C, S, T>,
    making: &Making,
    calls: &[Call],
) -> Ran<C, S, T>
    ensures run { CarriedOut (S.Seal.rules ends.seal) (C.Card.records ends.card) (T.Tape.words ends.tape) (making_told making.now) calls.now result.store.store result.transcript }
    ensures seal { result.store.seal ≡ ends.seal }
{
    let count = ends.card.count();
    of_bytes(making);
    let mut store = make(heap, ends, making);
    let notes = follow(heap, &mut store, making, count, calls);
    Ran {
        store,
        transcript: finish(notes),
    }
}

/// Any making.
fn make<C: Card, S: Seal, T: Tape>(
    heap: Global,
    ends: Ends<C, S, T>,
    making: &Making,
) -> Store<C, S, T>
    ensures made { MadeBy result.store (C.Card.records ends.card) (T.Tape.words ends.tape) (make_of (S.Seal.rules ends.seal) (C.Card.records ends.card) (T.Tape.words ends.tape) (making_told making.now)) }
    ensures seal { result.seal ≡ ends.seal }
{
    match making {
        Making::Format(blocks) => Store::format(heap, ends, *blocks),
        Making::Resume(file) => Store::resume(heap, ends, file),
    }
}

/// The calls one after the other, with notes of what they show.
fn follow<C: Card, S: Seal, T: Tape>(
    heap: Global,
    store: &mut Store<C, S, T>,
    making: &Making,
    count: u32,
    calls: &[Call],
) -> Result<Notes, AllocError>
    ensures step { (card : List Bytes) → length card ≡ count → Followed notes_told (S.Seal.rules store.old.seal) store.old.store (first_shown store.old.store (making_told making.now) card) calls.now store.new.store result }
    ensures seal { store.new.seal ≡ store.old.seal }
{
    let mut notes = Notes {
        begun: note_beginning(heap, store)?,
        // All its memory at once: a list that grows as it is filled asks for more than it needs.
        answers: Vec::with_capacity(heap, calls.len())?,
        faces: Vec::new(heap),
        places: Vec::new(heap),
        sealings: note_making(heap, store, making, count)?,
    };
    for call in calls {
        note_call(heap, store, call, &mut notes)?;
    }
    Ok(notes)
}

/// The notes of a whole run, as its transcript.
fn finish(notes: Result<Notes, AllocError>) -> Result<Transcript, AllocError>
    requires { IfOk notes (λ n. ∥ ShownByAStore n ∥₁) }
    ensures { notes_in result ≡ notes }
{
    Ok(Transcript { notes: notes? })
}
