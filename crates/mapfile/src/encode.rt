//! A position map as a map file.
ghost use Rattle.std.specs.Prelude.{◌≡◌, ◌+◌, ◌*◌, ◌≤◌, ◌++◌, length};
ghost use Rattle.std.specs.List.{flat_map};
ghost use Rattle.layout.specs.Numbers.{little};
ghost use Rattle.machine.specs.Files.{landed_from, landed_places, file_length_of};
ghost use Rattle.mapfile.specs.Encodes.{put_at, encode_of};

use tables::positions::table::PositionMap;

/// How many blocks have landed.
pub fn landed(map: &PositionMap) -> u32
    ensures { result ≡ length (landed_places map.now) }
{
    map.places().iter().filter(|place| place.is_some()).count() as u32
}

/// Writes the map file of a card of `count` places to the front of the buffer, and answers its
/// length. `None` says that the buffer is too short, and that nothing was written.
pub fn encode(map: &PositionMap, count: u32, last: u32, buffer: &mut [u8]) -> Option<usize>
    ensures { (result, buffer.new) ≡ encode_of count last map.now buffer.old }
{
    let landed = landed(map);
    let length = 10 + 4 * landed as usize;
    if buffer.len() < length {
        return None;
    }
    put_header(map.blocks(), count, landed, last, buffer);
    put_entries(map, buffer, 2 * landed as usize);
    Some(length)
}

/// Writes the ten bytes that stand in front of the entries.
fn put_header(blocks: u32, count: u32, landed: u32, last: u32, buffer: &mut [u8])
    requires { 10 ≤ length buffer.old }
    ensures { buffer.new ≡ put_at buffer.old 0 (little 2 blocks ++ little 2 count ++ little 2 landed ++ little 4 last) }
{
    put_number(buffer, 0, blocks);
    put_number(buffer, 2, count);
    put_number(buffer, 4, landed);
    buffer[6..10].copy_from_slice(&last.to_le_bytes());
}

/// Writes the landed blocks, rising, behind the header, and their places in the same order `apart` bytes further on.
fn put_entries(map: &PositionMap, buffer: &mut [u8], apart: usize)
    requires room { file_length_of map.now ≤ length buffer.old }
    requires apart { apart ≡ 2 * length (landed_places map.now) }
    ensures { buffer.new ≡ put_at (put_at buffer.old 10 (flat_map (little 2) (landed_from 0 map.now))) (10 + apart) (flat_map (little 2) (landed_places map.now)) }
{
    // A byte that steps is plainer here than a chain of filter, zip and step_by.
    let mut at = 10;
    for (block, place) in map.places().iter().enumerate() {
        if let Some(place) = place {
            put_number(buffer, at, block as u32);
            put_number(buffer, at + apart, place.0);
            at += 2;
        }
    }
}

/// Writes the lowest two bytes of a number.
fn put_number(buffer: &mut [u8], at: usize, n: u32)
    requires { at + 2 ≤ length buffer.old }
    ensures { buffer.new ≡ put_at buffer.old at (little 2 n) }
{
    let bytes = n.to_le_bytes();
    buffer[at..at + 2].copy_from_slice(&bytes[0..2]);
}
