//! A card over bytes that are lent to it.
ghost use Rattle.std.specs.Prelude.{◌≡◌, ◌<◌, [], length, slice_index_or, slice_set};
ghost use Rattle.denial.specs.Denials.{told};
ghost use Rattle.card.specs.Faults.{card_denial};
ghost use Rattle.card.specs.Cards.{allowed, put_of};
ghost use Rattle.card.specs.Kinds.{byte_records, byte_rest};
ghost use Rattle.card.specs.Pieces.{bytes_few, bytes_whole};

use crate::card::Card;
use crate::fault::CardFault;
use crate::{MOST_RECORDS, RECORD_LEN};
use layout::names::Place;

/// A card whose records lie one after another in lent bytes, 64 bytes each.
/// Bytes after the last whole record, and after the 65,536th, belong to no record.
// No `impl Model`: that the bytes are those lent is a fact of the reference, which no value of a model has.
#[derive(Drop)]
pub struct ByteCard<'a> {
    bytes: &'a mut [u8],
}

impl<'a> ByteCard<'a> {
    /// The card that lies in these bytes.
    pub fn new(bytes: &'a mut [u8]) -> ByteCard<'a>
        ensures holds_the_bytes { result.bytes.now ≡ bytes.old }
        ensures bytes_are_those_lent { result.bytes.ghost_name ≡ bytes.entry.ghost_name }
    {
        Self { bytes }
    }

    /// Whether so many bytes may be got from, or put at, a place.
    fn allow(&self, at: Place, len: usize) -> Result<(), CardFault>
        ensures { told card_denial result ≡ allowed (byte_records self.now.bytes.now) at.0 len }
    {
        if at.0 >= self.count() {
            return Err(CardFault::Beyond(at));
        }
        if len != RECORD_LEN {
            return Err(CardFault::Size);
        }
        Ok(())
    }

    /// Copies the record at a place into a buffer for one.
    fn read(&self, at: Place, buffer: &mut [u8])
        requires { (at.0 < length (byte_records self.now.bytes.now)) × (length buffer.old ≡ 64) }
        ensures { buffer.new ≡ slice_index_or (byte_records self.now.bytes.now) at.0 [] }
    {
        let from = at.0 as usize * RECORD_LEN;
        buffer.copy_from_slice(&self.bytes[from..from + RECORD_LEN]);
    }

    /// Copies a record to a place.
    fn write(&mut self, at: Place, bytes: &[u8])
        requires { (at.0 < length (byte_records self.old.bytes.now)) × (length bytes.now ≡ 64) }
        ensures record_replaced { byte_records self.new.bytes.now ≡ slice_set (byte_records self.old.bytes.now) at.0 bytes.now }
        ensures bytes_after_the_last_record_stay { byte_rest self.new.bytes.now ≡ byte_rest self.old.bytes.now }
        ensures length_stays { length self.new.bytes.now ≡ length self.old.bytes.now }
        ensures bytes_are_those_lent { self.new.bytes.ghost_name ≡ self.old.bytes.ghost_name }
    {
        let from = at.0 as usize * RECORD_LEN;
        self.bytes[from..from + RECORD_LEN].copy_from_slice(bytes);
    }
}

impl Card for ByteCard<'_> {
    ghost records = { λ c. byte_records c.bytes.now };

    ghost few = { λ c. bytes_few c.bytes.now };

    ghost whole = { λ c. bytes_whole c.bytes.now };

    fn count(&self) -> u32 {
        (self.bytes.len() / RECORD_LEN).min(MOST_RECORDS as usize) as u32
    }

    fn get(&self, at: Place, buffer: &mut [u8]) -> Result<(), CardFault> {
        self.allow(at, buffer.len())?;
        self.read(at, buffer);
        Ok(())
    }

    fn put(&mut self, at: Place, bytes: &[u8]) -> Result<(), CardFault>
        ensures answer_and_records { (told card_denial result, byte_records self.new.bytes.now) ≡ put_of (byte_records self.old.bytes.now) at.0 bytes.now }
        ensures bytes_after_the_last_record_stay { byte_rest self.new.bytes.now ≡ byte_rest self.old.bytes.now }
        ensures length_stays { length self.new.bytes.now ≡ length self.old.bytes.now }
        ensures bytes_are_those_lent { self.new.bytes.ghost_name ≡ self.old.bytes.ghost_name }
    {
        self.allow(at, bytes.len())?;
        self.write(at, bytes);
        Ok(())
    }
}
