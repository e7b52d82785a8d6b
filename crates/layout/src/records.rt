//! A record: what lies at one place of a card.
ghost use Rattle.std.specs.Prelude.{◌≡◌};
ghost use Rattle.layout.specs.Layouts.{record_of, counter_in, sealed_in, tag_in, RecordApart};

use crate::numbers::first_number;

/// A clear counter, a sealed body and a tag: 64 bytes.
#[derive(Clone, Copy, PartialEq, Eq, Debug)]
pub struct Record {
    pub counter: u32,
    pub sealed: [u8; 52],
    pub tag: [u8; 8],
}

impl Record {
    // Named as std names `to_le_bytes`: `From` would not say that these bytes are a layout.
    pub fn to_bytes(self) -> [u8; 64]
        ensures laid_out { result ≡ record_of self.counter self.sealed self.tag }
        ensures comes_apart_again { RecordApart self.counter self.sealed self.tag result }
    {
        let mut bytes = [0; 64];
        bytes[0..4].copy_from_slice(&self.counter.to_le_bytes());
        bytes[4..56].copy_from_slice(&self.sealed);
        bytes[56..64].copy_from_slice(&self.tag);
        bytes
    }

    // Named so for the same reason.
    pub fn from_bytes(bytes: &[u8; 64]) -> Record
        ensures counter { result.counter ≡ counter_in bytes.now }
        ensures sealed { result.sealed ≡ sealed_in bytes.now }
        ensures tag { result.tag ≡ tag_in bytes.now }
        ensures goes_together_again { record_of result.counter result.sealed result.tag ≡ bytes.now }
    {
        let mut sealed = [0; 52];
        sealed.copy_from_slice(&bytes[4..56]);
        let mut tag = [0; 8];
        tag.copy_from_slice(&bytes[56..64]);
        Record {
            counter: clear_counter(bytes),
            sealed,
            tag,
        }
    }
}

/// The clear counter of a record, which anyone who copies the card can read.
pub fn clear_counter(bytes: &[u8; 64]) -> u32
    ensures { result ≡ counter_in bytes.now }
{
    first_number(bytes)
}
