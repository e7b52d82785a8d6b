ghost use Rattle.std.specs.Prelude.{◌≡◌, ℕ, ◌<◌, ◌≤◌, List, [], length, slice_index_or};
ghost use Rattle.layout.specs.Numbers.{Bytes};
ghost use Rattle.denial.specs.Denials.{told};
ghost use Rattle.card.specs.Faults.{card_denial};
ghost use Rattle.card.specs.Cards.{most, get_of, put_of};

use crate::fault::CardFault;
use layout::names::Place;

/// A card: its meaning is the list of its records.
pub trait Card {
    ghost records: { Self → List Bytes };

    /// How many records there are, which never changes.
    fn count(&self) -> u32
        ensures { result ≡ length (records self.now) };

    /// Copies the record at a place out.
    fn get(&self, at: Place, buffer: &mut [u8]) -> Result<(), CardFault>
        ensures { (told card_denial result, buffer.new) ≡ get_of (records self.now) at.0 buffer.old };

    /// Replaces the record at a place and no other.
    fn put(&mut self, at: Place, bytes: &[u8]) -> Result<(), CardFault>
        ensures { (told card_denial result, records self.new) ≡ put_of (records self.old) at.0 bytes.now };

    ghost few: { (c : Self) → length (records c) ≤ most };

    ghost whole: { (c : Self) (p : ℕ) → p < length (records c) → length (slice_index_or (records c) p []) ≡ 64 };
}
