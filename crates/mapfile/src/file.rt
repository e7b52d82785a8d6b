//! A map file as it is read: the sizes, the last counter, and the landed blocks with their places.
ghost use Rattle.std.specs.Prelude.{◌≡◌, ◌+◌, ◌*◌, ◌<◌, ◌≤◌, take, drop, length};
ghost use Rattle.std.specs.Option.{option_map};
ghost use Rattle.std.specs.List.{AllByRecursion};
ghost use Rattle.std.proofs.Props.{props};
ghost use Rattle.layout.specs.Numbers.{number};
ghost use Rattle.machine.specs.Files.{file_blocks, file_count, file_landed, file_last, entries};
ghost use Rattle.mapfile.specs.Listed.{entries_left};
ghost use Rattle.mapfile.specs.Reads.{parse_of};

use crate::entries::{Entries, number};

/// The bytes of a map file, as many as its header says.
#[derive(Clone, Copy)]
pub struct MapFile<'a> {
    bytes: &'a [u8],
    ghost header: { 10 ≤ length bytes.now },
    ghost in_bytes: { AllByRecursion (λ b. b < 256) bytes.now } by { Prim.hlevel props },
    ghost as_long_as_it_says: { length bytes.now ≡ 10 + 4 * file_landed bytes.now },
}

impl<'a> MapFile<'a> {
    /// The map file that these bytes are, if their number is what their header says.
    pub fn parse(bytes: &'a [u8]) -> Option<MapFile<'a>>
        ensures { option_map (λ file. file.bytes.now) result ≡ parse_of bytes.now }
    {
        if bytes.len() < 10 {
            return None;
        }
        let landed = number_at(bytes, 4) as usize;
        if bytes.len() != 10 + 4 * landed {
            return None;
        }
        Some(MapFile { bytes })
    }

    /// How many blocks the store has.
    pub fn blocks(&self) -> u32
        ensures { result ≡ file_blocks self.now.bytes.now }
    {
        number_at(self.bytes, 0)
    }

    /// How many places the card has.
    pub fn count(&self) -> u32
        ensures { result ≡ file_count self.now.bytes.now }
    {
        number_at(self.bytes, 2)
    }

    /// How many blocks have landed: the number of entries.
    pub fn landed(&self) -> u32
        ensures { result ≡ file_landed self.now.bytes.now }
    {
        number_at(self.bytes, 4)
    }

    /// The last counter that was sealed.
    pub fn last(&self) -> u32
        ensures { result ≡ file_last self.now.bytes.now }
    {
        let b = self.bytes;
        u32::from_le_bytes([b[6], b[7], b[8], b[9]])
    }

    /// The entries in file order, each a landed block and its place.
    pub fn entries(&self) -> Entries<'a>
        ensures in_file_order { entries_left result ≡ entries self.now.bytes.now }
        ensures in_two_bytes { AllByRecursion (λ e. (e.0 < 65536) × (e.1 < 65536)) (entries self.now.bytes.now) }
    {
        let (numbers, _) = self.bytes[10..].as_chunks::<2>();
        // The places stand behind all the blocks.
        let (blocks, places) = numbers.split_at(self.landed() as usize);
        Entries::new(blocks, places)
    }
}

/// The number that the two bytes at `at` spell.
fn number_at(bytes: &[u8], at: usize) -> u32
    requires { at + 2 ≤ length bytes.now }
    ensures { result ≡ number (take 2 (drop at bytes.now)) }
{
    number([bytes[at], bytes[at + 1]])
}
