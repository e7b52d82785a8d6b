//! What the blocks hold at the end of a day.
use example::booking::Booking;
use layout::names::Block;

/// The last booking for a block; zeros where there is none.
pub(crate) fn booked(day: &[Option<Booking>], block: Block) -> [u8; 48] {
    let last = day
        .iter()
        .flatten()
        .rev()
        .find(|booking| booking.block == block);
    last.map_or([0; 48], Booking::value)
}
