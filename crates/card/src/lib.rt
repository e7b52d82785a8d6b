//! Cards: where the records lie. One trait with its meaning, and the kinds of card.
#![tactic(auto)]

pub mod byte;
pub mod card;
pub mod fault;
pub mod split;
#[cfg(test)]
mod tests;
pub mod window;

/// The bytes of a record.
pub const RECORD_LEN: usize = 64;

/// The most records that a card may have.
pub const MOST_RECORDS: u32 = 65_536;
