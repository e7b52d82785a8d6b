ghost use Rattle.engine.specs.View.{machine_of};
ghost use Rattle.std.specs.Prelude.{◌≡◌};

use card::card::Card;
use seal::seal::Seal;
use std::marker::Model;
use tables::positions::table::PositionMap;
use tables::waiting::list::WaitingList;
use tape::tape::Tape;

/// The ends of a store: its card, its seal and its tape.
// No model: whoever makes a store or takes one apart names the three.
#[derive(Drop)]
pub struct Ends<C: Card, S: Seal, T: Tape> {
    pub card: C,
    pub seal: S,
    pub tape: T,
}

/// What an open store keeps in memory: the last counter, the position map and the waiting list.
#[derive(Drop)]
pub struct Memory {
    pub last: u32,
    pub map: PositionMap,
    pub waiting: WaitingList,
}

/// An open store. A contract sees the machine that it is, and its seal.
#[derive(Drop)]
pub struct OpenStore<C: Card, S: Seal, T: Tape> {
    pub ends: Ends<C, S, T>,
    pub memory: Memory,
}

impl<C: Card, S: Seal, T: Tape> Model for OpenStore<C, S, T> {
    ghost use Rattle.engine.specs.Running.{Running};

    ghost Value = { Running S };

    ghost use Rattle.engine.specs.View.{machine_of};

    ghost view = { λ s. record { machine = machine_of (C.Card.records s.ends.card) (T.Tape.words s.ends.tape) s.memory; seal = s.ends.seal } };
}

impl<C: Card, S: Seal, T: Tape> OpenStore<C, S, T> {
    /// An open store of these ends, with this memory.
    pub fn new(ends: Ends<C, S, T>, memory: Memory) -> OpenStore<C, S, T>
        ensures machine { result.machine ≡ machine_of (C.Card.records ends.card) (T.Tape.words ends.tape) memory }
        ensures seal { result.seal ≡ ends.seal }
    {
        OpenStore { ends, memory }
    }
}
