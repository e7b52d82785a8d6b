ghost use Rattle.runs.specs.Witness.{ShownByAStore};

use crate::calls::Answer;
use card::card::Card;
use layout::names::Place;
use seal::seal::Seal;
use std::alloc::AllocError;
use store::state::Store;
use tape::tape::Tape;

/// A body that the store sealed and put on its card: the place and the counter.
#[derive(Clone, Copy, PartialEq, Eq, Debug)]
pub struct Sealing {
    pub place: Place,
    pub counter: u32,
}

/// How a run begins: the card's face and the last counter after the making.
#[derive(PartialEq, Eq, Drop)]
pub struct Begun {
    pub face: Vec<u32>,
    pub counter: u32,
}

/// What a run shows, noted as it goes on.
#[derive(Drop)]
pub struct Notes {
    /// How the run begins; none after a denied making.
    pub begun: Option<Begun>,
    /// What each call answered.
    pub answers: Vec<Answer>,
    /// The card's face after each granted beat.
    // Faces and places are two lists, as in the law: the places alone decide whether the faces are equal.
    pub faces: Vec<Vec<u32>>,
    /// The place of each granted beat.
    pub places: Vec<Place>,
    /// The sealings: the making's, then one a granted beat.
    pub sealings: Vec<Sealing>,
}

/// The notes of a whole run. Some run of the law shows them, or a shut store: the type carries that.
#[derive(Drop)]
pub struct Transcript {
    pub notes: Notes,
    ghost shown: { ∥ ShownByAStore notes ∥₁ },
}

/// The store after a run, and the run's transcript, or want of memory for it.
#[derive(Drop)]
pub struct Ran<C: Card, S: Seal, T: Tape> {
    pub store: Store<C, S, T>,
    pub transcript: Result<Transcript, AllocError>,
}
