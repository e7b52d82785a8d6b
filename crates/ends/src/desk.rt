//! The desk: one card and one seal, and what is done with them together.
ghost use Rattle.std.specs.Prelude.{◌≡◌, [], IfOk, Some, slice_index_or, slice_set};
ghost use Rattle.layout.specs.Layouts.{body_of, counter_in};

use crate::trouble::Trouble;
use card::card::Card;
use layout::body::Body;
use layout::names::Place;
use layout::records::clear_counter;
use seal::seal::Seal;

/// What lies at a place.
#[derive(Clone, Copy, PartialEq, Eq)]
pub(crate) struct Kept {
    pub counter: u32,
    pub body: Body,
}

/// What should lie at which place.
#[derive(Clone, Copy)]
pub(crate) struct Entry {
    pub at: Place,
    pub kept: Kept,
}

#[derive(Drop)]
pub(crate) struct Desk<C: Card, S: Seal> {
    pub card: C,
    pub seal: S,
}

impl<C: Card, S: Seal> Desk<C, S> {
    /// Seals a booking for its place, puts the record there, and hands back a copy of it.
    pub(crate) fn keep(&mut self, new: &Entry) -> Result<[u8; 64], Trouble>
        ensures { IfOk result (λ b. (b ≡ (S.Seal.rules self.old.seal).sealed new.now.at.0 new.now.kept.counter (body_of new.now.kept.body.block.0 new.now.kept.body.value)) × (C.Card.records self.new.card ≡ slice_set (C.Card.records self.old.card) new.now.at.0 b)) }
    {
        let mut record = [0; 64];
        self.seal.seal(
            new.at,
            new.kept.counter,
            &new.kept.body.to_bytes(),
            &mut record,
        )?;
        self.card.put(new.at, &record)?;
        Ok(record)
    }

    /// A copy of the record at a place.
    pub(crate) fn record_at(&self, at: Place) -> Result<[u8; 64], Trouble>
        ensures { IfOk result (λ b. b ≡ slice_index_or (C.Card.records self.now.card) at.0 []) }
    {
        let mut record = [0; 64];
        self.card.get(at, &mut record)?;
        Ok(record)
    }

    /// Opens the record at a place.
    pub(crate) fn open_at(&self, at: Place) -> Result<Kept, Trouble>
        ensures { IfOk result (λ o. (S.Seal.rules self.now.seal).opened at.0 (slice_index_or (C.Card.records self.now.card) at.0 []) ≡ Some (o.counter, body_of o.body.block.0 o.body.value)) }
    {
        let record = self.record_at(at)?;
        let mut bytes = [0; 52];
        let counter = self.seal.open(at, &record, &mut bytes)?;
        Ok(Kept {
            counter,
            body: Body::from_bytes(&bytes),
        })
    }

    /// What anyone can read of a place with no key: its clear counter.
    pub(crate) fn face_at(&self, at: Place) -> Result<u32, Trouble>
        ensures { IfOk result (λ n. n ≡ counter_in (slice_index_or (C.Card.records self.now.card) at.0 [])) }
    {
        Ok(clear_counter(&self.record_at(at)?))
    }
}
