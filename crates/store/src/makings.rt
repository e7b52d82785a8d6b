ghost use Rattle.std.specs.Prelude.{◌≡◌};
ghost use Rattle.machine.specs.Makings.{format, resume};
ghost use Rattle.store.specs.Made.{MadeBy};
ghost use Rattle.store.specs.View.{assembled};

use super::state::{ShutStore, Store};
use answers::denials::Denial;
use card::card::Card;
use engine::state::{Ends, Memory, OpenStore};
use prepare::prepare::{prepare_format, prepare_resume};
use seal::seal::Seal;
use std::alloc::Global;
use tape::tape::Tape;

impl<C: Card, S: Seal, T: Tape> Store<C, S, T> {
    /// Makes a store of so many blocks on a card that is sealed anew, all dummies.
    pub fn format(heap: Global, ends: Ends<C, S, T>, blocks: u32) -> Store<C, S, T>
        ensures made { MadeBy result.store (C.Card.records ends.card) (T.Tape.words ends.tape) (format (S.Seal.rules ends.seal) (C.Card.records ends.card) (T.Tape.words ends.tape) blocks) }
        ensures seal { result.seal ≡ ends.seal }
    {
        let Ends {
            mut card,
            seal,
            tape,
        } = ends;
        let prepared = prepare_format(heap, &mut card, &seal, blocks);
        Store::assemble(Ends { card, seal, tape }, prepared)
    }

    /// Makes a store from a map file and the card that it was saved beside. The card is not written.
    pub fn resume(heap: Global, ends: Ends<C, S, T>, file: &[u8]) -> Store<C, S, T>
        ensures made { MadeBy result.store (C.Card.records ends.card) (T.Tape.words ends.tape) (resume (S.Seal.rules ends.seal) (C.Card.records ends.card) (T.Tape.words ends.tape) file.now) }
        ensures seal { result.seal ≡ ends.seal }
    {
        let prepared = prepare_resume(heap, &ends.card, &ends.seal, file);
        Store::assemble(ends, prepared)
    }

    /// An open store with the memory that was prepared, or a shut one.
    fn assemble(ends: Ends<C, S, T>, prepared: Result<Memory, Denial>) -> Store<C, S, T>
        ensures store { result.store ≡ assembled (C.Card.records ends.card) (T.Tape.words ends.tape) prepared }
        ensures seal { result.seal ≡ ends.seal }
    {
        let state = match prepared {
            Ok(memory) => Ok(OpenStore::new(ends, memory)),
            Err(denial) => Err(ShutStore { ends, denial }),
        };
        Store { state }
    }
}
