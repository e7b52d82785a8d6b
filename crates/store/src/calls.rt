ghost use Rattle.std.specs.Prelude.{◌≡◌, ℕ, [], length, Some, None};
ghost use Rattle.machine.specs.Machine.{Write, Read, Beat as OneBeat, Save, Face, Written, Valued, Saved, Shown};
ghost use Rattle.machine.specs.Makings.{Open, Shut, call};
ghost use Rattle.engine.specs.Steps.{answer_by, by_reason, beat_told};
ghost use Rattle.store.specs.View.{called};
ghost use Rattle.store.specs.Made.{making_answer, card_of, tape_of};

use super::state::Store;
use answers::beat::Beat;
use answers::denials::Denial;
use card::card::Card;
use engine::state::Ends;
use layout::names::Block;
use seal::seal::Seal;
use tape::tape::Tape;

impl<C: Card, S: Seal, T: Tape> Store<C, S, T> {
    /// Takes a block's new value, of at most 48 bytes, onto the waiting list.
    pub fn write(&mut self, block: Block, value: &[u8]) -> Result<(), Denial>
        ensures step { called (answer_by (λ _. Written) result) [] self.new.store ≡ call (S.Seal.rules self.old.seal) self.old.store (Write block.0 value.now) }
        ensures seal { self.new.seal ≡ self.old.seal }
    {
        // A match in all five calls: `as_mut` would lend what may hold several `&mut`, which the borrow checker does not cover yet.
        match &mut self.state {
            Ok(open) => open.write(block, value),
            Err(shut) => Err(shut.denial),
        }
    }

    /// Reads a block into 48 bytes.
    pub fn read(&self, block: Block, buffer: &mut [u8]) -> Result<(), Denial>
        ensures step { called (answer_by (λ _. Valued) result) buffer.new self.now.store ≡ call (S.Seal.rules self.now.seal) self.now.store (Read block.0 buffer.old) }
    {
        match &self.state {
            Ok(open) => open.read(block, buffer),
            Err(shut) => Err(shut.denial),
        }
    }

    /// Rewrites one record of the card, at a place off the tape.
    pub fn beat(&mut self) -> Result<Beat, Denial>
        ensures step { called (answer_by beat_told result) [] self.new.store ≡ call (S.Seal.rules self.old.seal) self.old.store OneBeat }
        ensures seal { self.new.seal ≡ self.old.seal }
    {
        match &mut self.state {
            Ok(open) => open.beat(),
            Err(shut) => Err(shut.denial),
        }
    }

    /// The map file into the front of the buffer, and its length.
    pub fn save(&self, buffer: &mut [u8]) -> Result<usize, Denial>
        ensures step { called (answer_by Saved result) buffer.new self.now.store ≡ call (S.Seal.rules self.now.seal) self.now.store (Save buffer.old) }
    {
        match &self.state {
            Ok(open) => open.save(buffer),
            Err(shut) => Err(shut.denial),
        }
    }

    /// The card's face, into as many numbers as the card has places.
    pub fn face(&self, buffer: &mut [u32]) -> Result<(), Denial>
        ensures step { called (answer_by (λ _. Shown) result) buffer.new self.now.store ≡ call (S.Seal.rules self.now.seal) self.now.store (Face buffer.old) }
    {
        match &self.state {
            Ok(open) => open.face(buffer),
            Err(shut) => Err(shut.denial),
        }
    }

    /// How many places the card counts.
    pub fn places(&self) -> u32
        ensures { result ≡ length (card_of self.now.store) }
    {
        match &self.state {
            Ok(open) => open.ends.card.count(),
            Err(shut) => shut.ends.card.count(),
        }
    }

    /// The last counter of an open store.
    pub fn last_counter(&self) -> Option<u32>
        ensures { elim self.now.store [ Open m ↦ result ≡ Some m.last | Shut why card tape ↦ result ≡ None ] }
    {
        self.state.as_ref().ok().map(|open| open.memory.last)
    }

    /// What the making answered.
    pub fn answer(&self) -> Result<(), Denial>
        ensures { by_reason result ≡ making_answer self.now.store }
    {
        self.state.as_ref().map(|_| ()).map_err(|shut| shut.denial)
    }

    /// Takes the store apart into its card, seal and tape, which ends it.
    pub fn into_ends(self) -> Ends<C, S, T>
        ensures card { C.Card.records result.card ≡ card_of self.store }
        ensures seal { result.seal ≡ self.seal }
        ensures tape { T.Tape.words result.tape ≡ tape_of self.store }
    {
        match self.state {
            Ok(open) => open.ends,
            Err(shut) => shut.ends,
        }
    }
}
