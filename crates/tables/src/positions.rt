ghost use Rattle.std.specs.Prelude.{◌≡◌, ℕ, ◌^◌, ◌<◌, length, replicate, IfOk, None, true, slice_index_or};
ghost use Rattle.machine.specs.Machine.{occupant};
ghost use Rattle.tables.specs.Apart.{apart};
ghost use Rattle.tables.specs.Settled.{settle_told};
ghost use Rattle.tables.specs.Views.{placed, place_of, block_of, noted, settle_of};

use layout::names::{Block, Place};
use std::alloc::{AllocError, Global};
use table::PositionMap;

pub mod table;

// How many places the index covers: the most that a store has.
const MOST_PLACES: usize = 1024;

/// Why a block was not settled.
#[derive(Clone, Copy, PartialEq, Eq, Debug)]
pub enum SettleFault {
    /// The map holds no such block.
    NoSuchBlock,
    /// Another block has the place, or the same one.
    Occupied,
}

impl PositionMap {
    /// A map in which no block has landed.
    pub fn new(heap: Global, blocks: u32) -> Result<PositionMap, AllocError>
        ensures { IfOk result (λ m. m ≡ replicate blocks None) }
    {
        let places = vec![in heap; None; blocks as usize]?;
        let occupants = vec![in heap; None; MOST_PLACES]?;
        Ok(PositionMap { places, occupants })
    }

    /// How many blocks there are.
    pub fn blocks(&self) -> u32
        ensures { result ≡ length self.now }
    {
        self.places.len() as u32
    }

    /// The place of each block, if it has landed, by block.
    pub fn places(&self) -> &[Option<Place>]
        ensures by_block { placed result.now ≡ self.now }
        ensures few { length self.now < 2 ^ 32 }
        ensures no_two_at_one_place { apart self.now ≡ true }
    {
        self.places.as_slice()
    }

    /// The place of a block, if it has landed.
    pub fn lookup(&self, block: Block) -> Option<Place>
        ensures { place_of result ≡ slice_index_or self.now block.0 None }
    {
        self.places.get(block.0 as usize).copied().flatten()
    }

    /// The block that has a place: one look-up where the index covers the place.
    pub fn occupant(&self, place: Place) -> Option<Block>
        ensures { block_of result ≡ occupant self.now place.0 }
    {
        match self.occupants.get(place.0 as usize) {
            Some(entry) => *entry,
            None => self.scan(place),
        }
    }

    // The same for any place, found among the blocks one by one.
    fn scan(&self, place: Place) -> Option<Block>
        ensures { block_of result ≡ occupant self.now place.0 }
    {
        let i = self.places.iter().position(|p| *p == Some(place))?;
        Some(Block(i as u32))
    }

    /// Gives a block a place that nobody has; its former place becomes vacant.
    pub fn settle(&mut self, block: Block, place: Place) -> Result<(), SettleFault>
        ensures { (settle_told result, self.new) ≡ settle_of self.old block.0 place.0 }
    {
        let i = block.0 as usize;
        if i >= self.places.len() {
            return Err(SettleFault::NoSuchBlock);
        }
        if self.occupant(place).is_some() {
            return Err(SettleFault::Occupied);
        }
        note(&mut self.occupants, self.places[i], None);
        note(&mut self.occupants, Some(place), Some(block));
        self.places[i] = Some(place);
        Ok(())
    }
}

// Notes in an index by place who has a place. Of no place, and past the index, there is nothing to note.
fn note(occupants: &mut Vec<Option<Block>>, place: Option<Place>, block: Option<Block>)
    ensures { occupants.new.items ≡ noted occupants.old.items place block }
{
    if let Some(place) = place {
        let p = place.0 as usize;
        if p < occupants.len() {
            occupants[p] = block;
        }
    }
}
