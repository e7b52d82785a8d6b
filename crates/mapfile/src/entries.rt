//! The entries of a map file, as they are read one by one.
ghost use Rattle.std.specs.Prelude.{◌≡◌};
ghost use Rattle.std.specs.Iterator.{YieldsFirstBy, item_count};
ghost use Rattle.layout.specs.Numbers.{number};
ghost use Rattle.machine.specs.Files.{paired};
ghost use Rattle.mapfile.specs.Listed.{entry_numbers, entries_left, spelled};

use layout::names::{Block, Place};

/// The entries of a map file that are left: all blocks lie before all places, so these are two slices.
// A type of its own: a chain with a closure in it has no name to be returned by.
#[derive(Drop)]
pub struct Entries<'a> {
    blocks: &'a [[u8; 2]],
    places: &'a [[u8; 2]],
}

impl<'a> Entries<'a> {
    pub(crate) fn new(blocks: &'a [[u8; 2]], places: &'a [[u8; 2]]) -> Entries<'a>
        ensures { entries_left result ≡ paired (spelled blocks.now) (spelled places.now) }
    {
        Entries { blocks, places }
    }
}

impl<'a> Iterator for Entries<'a> {
    type Item = (Block, Place);

    ghost next_gives = { YieldsFirstBy entry_numbers entries_left };

    ghost remaining = { item_count entries_left };

    fn next(&mut self) -> Option<(Block, Place)> {
        let (block, blocks) = self.blocks.split_first()?;
        let (place, places) = self.places.split_first()?;
        self.blocks = blocks;
        self.places = places;
        Some((Block(number(*block)), Place(number(*place))))
    }
}

/// The number that two bytes spell, the lower one first.
pub(crate) fn number(bytes: [u8; 2]) -> u32
    ensures { result ≡ number bytes }
{
    u32::from(u16::from_le_bytes(bytes))
}
