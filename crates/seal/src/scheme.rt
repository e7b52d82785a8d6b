//! What the seals share: a cover for the body, a tag over what it covers, and one way to use them.
ghost use Rattle.std.specs.Prelude.{◌≡◌, ◌++◌};
ghost use Rattle.layout.specs.Numbers.{little};
ghost use Rattle.seal.specs.Schemes.{Cover, Tagging, rules_by};
ghost use Rattle.seal.specs.Schemed;
ghost use Rattle.seal.specs.Schemed.{Fit};

use crate::fault::SealFault;
use crate::seal::Seal;
use layout::names::Place;
use layout::records::Record;

/// How a seal covers a body, and how it tags what it covered.
pub trait Scheme {
    ghost covers: { Self → Cover };

    ghost tags: { Self → Tagging };

    fn cover(&self, at: Place, counter: u32, body: &[u8; 52]) -> [u8; 52]
        ensures { result ≡ covers self.now at.0 counter body.now };

    fn tag(&self, at: Place, counter: u32, covered: &[u8; 52]) -> [u8; 8]
        ensures { result ≡ tags self.now at.0 counter covered.now };

    ghost fit: { (m : Self) → Fit (covers m) (tags m) };
}

/// The place, then the counter: what a record is sealed for.
pub(crate) fn place_and_counter(at: Place, counter: u32) -> [u8; 8]
    ensures { result ≡ little 4 at.0 ++ little 4 counter }
{
    let mut bytes = [0; 8];
    bytes[0..4].copy_from_slice(&at.0.to_le_bytes());
    bytes[4..8].copy_from_slice(&counter.to_le_bytes());
    bytes
}

impl<M: Scheme> Seal for M {
    ghost rules = { λ m. rules_by (M.Scheme.covers m) (M.Scheme.tags m) };

    ghost lawful = { λ m. Schemed.lawful (M.Scheme.covers m) (M.Scheme.tags m) (M.Scheme.fit m) };

    fn seal(
        &self,
        at: Place,
        counter: u32,
        body: &[u8],
        buffer: &mut [u8],
    ) -> Result<(), SealFault> {
        let Ok(body) = <&[u8; 52]>::try_from(body) else {
            return Err(SealFault::Size);
        };
        if buffer.len() != 64 {
            return Err(SealFault::Size);
        }
        let sealed = self.cover(at, counter, body);
        let tag = self.tag(at, counter, &sealed);
        let record = Record {
            counter,
            sealed,
            tag,
        };
        buffer.copy_from_slice(&record.to_bytes());
        Ok(())
    }

    fn open(&self, at: Place, bytes: &[u8], buffer: &mut [u8]) -> Result<u32, SealFault> {
        let Ok(bytes) = <&[u8; 64]>::try_from(bytes) else {
            return Err(SealFault::Size);
        };
        if buffer.len() != 52 {
            return Err(SealFault::Size);
        }
        let record = Record::from_bytes(bytes);
        if self.tag(at, record.counter, &record.sealed) != record.tag {
            return Err(SealFault::Tag(at));
        }
        buffer.copy_from_slice(&self.cover(at, record.counter, &record.sealed));
        Ok(record.counter)
    }
}
