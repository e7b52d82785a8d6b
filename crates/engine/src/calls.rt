ghost use Rattle.std.specs.Prelude.{◌≡◌, ◌<◌, true, [], length, is_ok};
ghost use Rattle.layout.specs.Layouts.{body_of};
ghost use Rattle.machine.specs.Machine.{Written, Valued, Saved, Shown, write_step, read_step, beat_step, save_step, face_step};
ghost use Rattle.engine.specs.Steps.{answer_by, as_reason, by_place, beat_told, choice, choice_told, outcome, place_drawn, with_sealed};

use super::state::OpenStore;
use crate::records::{clear_at, open_at};
use answers::beat::{Beat, Deed};
use answers::denials::Denial;
use answers::fault::StoreFault;
use card::card::Card;
use card::fault::CardFault;
use layout::body::Body;
use layout::names::{Block, Place};
use layout::values::filled_value;
use mapfile::encode::encode;
use seal::seal::Seal;
use tables::waiting::Full;
use tape::fault::TapeFault;
use tape::tape::Tape;

impl<C: Card, S: Seal, T: Tape> OpenStore<C, S, T> {
    /// Takes a block's new value onto the waiting list, filled with zeros. The card is not touched.
    pub fn write(&mut self, block: Block, value: &[u8]) -> Result<(), Denial>
        ensures step { outcome (answer_by (λ _. Written) result) [] self.new.machine ≡ write_step self.old.machine block.0 value.now }
        ensures seal { self.new.seal ≡ self.old.seal }
    {
        if block.0 >= self.memory.map.blocks() {
            return Err(Denial::ByStore(StoreFault::BlockBeyond));
        }
        let value = filled_value(value).ok_or(StoreFault::ValueLong)?;
        if self.memory.waiting.replace(block, value).is_some() {
            return Ok(());
        }
        if let Err(Full) = self.memory.waiting.join(Body { block, value }) {
            return Err(Denial::ByStore(StoreFault::ListFull));
        }
        Ok(())
    }

    /// Reads a block's waiting value, else its landed one, else zeros.
    pub fn read(&self, block: Block, buffer: &mut [u8]) -> Result<(), Denial>
        ensures { outcome (answer_by (λ _. Valued) result) buffer.new self.now.machine ≡ read_step (S.Seal.rules self.now.seal) self.now.machine block.0 buffer.old }
    {
        if block.0 >= self.memory.map.blocks() {
            return Err(Denial::ByStore(StoreFault::BlockBeyond));
        }
        if buffer.len() != 48 {
            return Err(Denial::ByStore(StoreFault::BufferLength));
        }
        if let Some(value) = self.memory.waiting.value_of(block) {
            buffer.copy_from_slice(&value);
            return Ok(());
        }
        let Some(place) = self.memory.map.lookup(block) else {
            buffer.copy_from_slice(&[0u8; 48]);
            return Ok(());
        };
        let body = open_at(&self.ends.card, &self.ends.seal, place)?;
        buffer.copy_from_slice(&Body::from_bytes(&body).value);
        Ok(())
    }

    /// One card write: the block that has the drawn place is sealed again, else the first in turn lands, else a dummy is sealed.
    pub fn beat(&mut self) -> Result<Beat, Denial>
        ensures step { outcome (answer_by beat_told result) [] self.new.machine ≡ beat_step (S.Seal.rules self.old.seal) self.old.machine }
        ensures seal { self.new.seal ≡ self.old.seal }
    {
        if !self.ends.tape.more() {
            return Err(Denial::ByTape(TapeFault::Spent));
        }
        let counter = self.memory.last.checked_add(1);
        let counter = counter.ok_or(StoreFault::CounterSpent)?;
        let word = self.ends.tape.draw()?;
        let place = self.place_of(word)?;
        let (body, deed) = self.choose(place)?;
        self.seal_at(place, counter, body)?;
        if let Deed::Landed(block) = deed {
            let _ = self.memory.map.settle(block, place);
            let _ = self.memory.waiting.take_first();
        }
        Ok(Beat {
            place,
            counter,
            deed,
        })
    }

    /// The place that a word of the tape gives.
    fn place_of(&self, word: u32) -> Result<Place, Denial>
        ensures { by_place result ≡ as_reason (place_drawn (length self.now.machine.card) word) }
    {
        let count = self.ends.card.count();
        if count == 0 {
            return Err(Denial::ByCard(CardFault::Beyond(Place(word))));
        }
        Ok(Place(word % count))
    }

    /// What a beat seals at a place: the block that has it, with the value that lies there,
    /// else the first in turn, else a dummy.
    fn choose(&self, place: Place) -> Result<(Body, Deed), Denial>
        ensures { choice_told result ≡ as_reason (choice (S.Seal.rules self.now.seal) self.now.machine place.0) }
    {
        if let Some(block) = self.memory.map.occupant(place) {
            let old = open_at(&self.ends.card, &self.ends.seal, place)?;
            let value = Body::from_bytes(&old).value;
            return Ok((Body { block, value }, Deed::SealedAgain(block)));
        }
        match self.memory.waiting.first() {
            Some(slot) => Ok((slot, Deed::Landed(slot.block))),
            None => Ok((Body::dummy(), Deed::Dummy)),
        }
    }

    /// Seals a body at a place under a counter, which becomes the last.
    fn seal_at(&mut self, place: Place, counter: u32, body: Body) -> Result<(), Denial>
        requires { place.0 < length self.old.machine.card }
        ensures granted { is_ok result ≡ true }
        ensures machine { self.new.machine ≡ with_sealed (S.Seal.rules self.old.seal) self.old.machine place.0 counter (body_of body.block.0 body.value) }
        ensures seal { self.new.seal ≡ self.old.seal }
    {
        let mut bytes = [0; 64];
        self.ends
            .seal
            .seal(place, counter, &body.to_bytes(), &mut bytes)?;
        self.ends.card.put(place, &bytes)?;
        self.memory.last = counter;
        Ok(())
    }

    /// The map file into the front of the buffer, and its length. A store whose blocks wait has none.
    pub fn save(&self, buffer: &mut [u8]) -> Result<usize, Denial>
        ensures { outcome (answer_by Saved result) buffer.new self.now.machine ≡ save_step self.now.machine buffer.old }
    {
        if self.memory.waiting.len() > 0 {
            return Err(Denial::ByStore(StoreFault::BlocksWait));
        }
        let count = self.ends.card.count();
        let length = encode(&self.memory.map, count, self.memory.last, buffer);
        length.ok_or(Denial::ByStore(StoreFault::BufferLength))
    }

    /// The card's face: its clear counters in place order.
    pub fn face(&self, buffer: &mut [u32]) -> Result<(), Denial>
        ensures { outcome (answer_by (λ _. Shown) result) buffer.new self.now.machine ≡ face_step self.now.machine buffer.old }
    {
        let count = self.ends.card.count();
        if buffer.len() != count as usize {
            return Err(Denial::ByStore(StoreFault::BufferLength));
        }
        for (i, slot) in buffer.iter_mut().enumerate() {
            *slot = clear_at(&self.ends.card, Place(i as u32))?;
        }
        Ok(())
    }
}
