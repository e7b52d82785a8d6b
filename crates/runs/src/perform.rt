ghost use Rattle.std.specs.Prelude.{◌≡◌};
ghost use Rattle.machine.specs.Makings.{call as call_of};
ghost use Rattle.runs.specs.Performed.{Performed};
ghost use Rattle.runs.specs.Told.{call_told};

use crate::calls::{Answer, Call, Granted};
use card::card::Card;
use seal::seal::Seal;
use std::alloc::{AllocError, Global};
use store::state::Store;
use tape::tape::Tape;

/// Takes the memory of the call's buffer, and then makes the one call.
pub fn perform<C: Card, S: Seal, T: Tape>(
    heap: Global,
    store: &mut Store<C, S, T>,
    call: &Call,
) -> Result<Answer, AllocError>
    ensures step { Performed (call_told call.now) result store.old.store store.new.store (call_of (S.Seal.rules store.old.seal) store.old.store (call_told call.now)) }
    ensures seal { store.new.seal ≡ store.old.seal }
{
    match call {
        Call::Write(block, value) => Ok(store.write(*block, value).map(|()| Granted::Written)),
        Call::Read(block, size) => {
            let mut buffer = vec![in heap; 0; *size]?;
            let read = store.read(*block, &mut buffer);
            Ok(read.map(|()| Granted::Valued(buffer)))
        }
        Call::Beat => Ok(store.beat().map(Granted::Beaten)),
        Call::Save(size) => {
            let mut buffer = vec![in heap; 0; *size]?;
            let saved = store.save(&mut buffer);
            Ok(saved.map(|count| Granted::Saved(count, buffer)))
        }
        Call::Face(size) => {
            let mut buffer = vec![in heap; 0u32; *size]?;
            let shown = store.face(&mut buffer);
            Ok(shown.map(|()| Granted::Shown(buffer)))
        }
    }
}
