use answers::denials::Denial;
use card::card::Card;
use engine::state::{Ends, OpenStore};
use seal::seal::Seal;
use std::marker::Model;
use tape::tape::Tape;

/// What is left where a making was denied: the ends, and the denial that every later call answers.
#[derive(Drop)]
pub struct ShutStore<C: Card, S: Seal, T: Tape> {
    pub ends: Ends<C, S, T>,
    pub denial: Denial,
}

/// A hiding store over a card, a seal and a tape: open, or shut by the denial of its making.
/// A contract sees the store of the definitions that it is, and its seal.
#[derive(Drop)]
pub struct Store<C: Card, S: Seal, T: Tape> {
    pub state: Result<OpenStore<C, S, T>, ShutStore<C, S, T>>,
}

impl<C: Card, S: Seal, T: Tape> Model for Store<C, S, T> {
    ghost use Rattle.store.specs.Held.{Held};

    ghost Value = { Held S };

    ghost use Rattle.store.specs.View.{store_of, seal_of};

    ghost view = { λ s. record { store = store_of C.Card.records T.Tape.words s.state; seal = seal_of s.state } };
}
