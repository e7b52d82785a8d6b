ghost use Rattle.std.specs.Prelude.{◌≡◌};
ghost use Rattle.denial.specs.Denials.{told};
ghost use Rattle.seal.specs.Faults.{seal_denial};
ghost use Rattle.seal.specs.Seals.{Rules, Lawful, seal_of, open_of};

use crate::fault::SealFault;
use layout::names::Place;

/// A seal: its meaning is two fixed rules, which are lawful.
pub trait Seal {
    ghost rules: { Self → Rules };

    // Place and counter stay two: the card is asked by the one, and the record tells the other.
    /// Seals a body for a place and a counter into a buffer of 64 bytes.
    fn seal(&self, at: Place, counter: u32, body: &[u8], buffer: &mut [u8]) -> Result<(), SealFault>
        ensures { (told seal_denial result, buffer.new) ≡ seal_of (rules self.now) at.0 counter body.now buffer.old };

    /// Opens a record at a place into a buffer of 52 bytes, and answers its counter.
    fn open(&self, at: Place, bytes: &[u8], buffer: &mut [u8]) -> Result<u32, SealFault>
        ensures { (told seal_denial result, buffer.new) ≡ open_of (rules self.now) at.0 bytes.now buffer.old };

    ghost lawful: { (s : Self) → Lawful (rules s) };
}
