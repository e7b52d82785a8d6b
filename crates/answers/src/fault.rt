ghost use Rattle.answers.specs.Told.{store_denial};

use denial::{Layer, Row, Tabled};
use layout::names::Place;
use seal::fault::SealFault;

/// Why the store itself denies.
#[derive(Clone, Copy, PartialEq, Eq, Debug)]
pub enum StoreFault {
    /// 1: the map file is under 10 bytes, or not as long as its own count of landed blocks asks.
    FileLength,
    /// 2: the count of blocks is 0 or above 512.
    BlockCount,
    /// 3: the card counts too few or too many places, or not as many as the file says.
    PlaceCount,
    /// 4: an entry's block or place is out of range, out of order or listed twice.
    FileEntry,
    /// 5: a clear counter on the card is above the file's last counter.
    CounterAbove(Place),
    /// 6: a listed place does not open; this is the seal's own denial.
    Unopened(Place, SealFault),
    /// 7: a listed place opens to another block.
    OtherBlock(Place),
    /// 8: the block is not below the count of blocks.
    BlockBeyond,
    /// 9: the value is longer than 48 bytes.
    ValueLong,
    /// 10: a block waits.
    BlocksWait,
    /// 11: the buffer has not the length that the call asks for.
    BufferLength,
    /// 12: sixteen blocks wait, and this one is not among them.
    ListFull,
    /// 14: the last counter is the highest that there is.
    CounterSpent,
}

impl Tabled for StoreFault {
    ghost entry = { store_denial };

    // The numbers are the table's, which people and scripts read.
    fn table_row(&self) -> Row {
        let (number, place) = match self {
            StoreFault::FileLength => (1, None),
            StoreFault::BlockCount => (2, None),
            StoreFault::PlaceCount => (3, None),
            StoreFault::FileEntry => (4, None),
            StoreFault::CounterAbove(place) => (5, Some(*place)),
            StoreFault::Unopened(place, _) => (6, Some(*place)),
            StoreFault::OtherBlock(place) => (7, Some(*place)),
            StoreFault::BlockBeyond => (8, None),
            StoreFault::ValueLong => (9, None),
            StoreFault::BlocksWait => (10, None),
            StoreFault::BufferLength => (11, None),
            StoreFault::ListFull => (12, None),
            StoreFault::CounterSpent => (14, None),
        };
        Row {
            number,
            layer: Layer::Store,
            place,
        }
    }
}
