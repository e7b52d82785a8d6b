//! Denials in words, for a person: what is wrong, and what to do.
use answers::denials::Denial;
use answers::fault::StoreFault;
use std::fmt;

/// A denial's line and its reason in words.
// A wrapper: its words are a script's or a person's, and its type another crate's.
#[derive(Clone, Copy)]
pub struct Explained(pub Denial);

impl fmt::Display for Explained {
    fn fmt<W: fmt::Write>(&self, f: &mut fmt::Formatter<W>) -> fmt::Result {
        write!(f, "{}: {}", self.0, reason_of(self.0))
    }
}

fn reason_of(denial: Denial) -> &'static str {
    match denial {
        Denial::ByStore(fault) => store_reason(fault),
        Denial::ByCard(_) => "the card has no such place, or the buffer is no record",
        Denial::BySeal(_) =>
            "the record is damaged, or sealed under other keys or for another place",
        Denial::ByTape(_) => "no word is left on the tape; give a longer one",
        Denial::NoMemory => "no memory is left for the store's tables",
    }
}

fn store_reason(fault: StoreFault) -> &'static str {
    match fault {
        StoreFault::FileLength => "the map file is cut short or too long",
        StoreFault::BlockCount => "a store has 1 to 512 blocks",
        StoreFault::PlaceCount => {
            "the card must have twice as many places as blocks, at most 1024, and those of the map file"
        }
        StoreFault::FileEntry =>
            "an entry of the map file is out of range, out of order or listed twice",
        StoreFault::CounterAbove(_) =>
            "the card is newer than the map file; save the map after the last beat",
        StoreFault::Unopened(_, _) =>
            "a listed record does not open; card, keys and map file do not belong together",
        StoreFault::OtherBlock(_) =>
            "a listed record holds another block; card and map file do not belong together",
        StoreFault::BlockBeyond => "the store has no such block",
        StoreFault::ValueLong => "a value has at most 48 bytes",
        StoreFault::BlocksWait => "a block waits; beat until nothing waits, then save",
        StoreFault::BufferLength => "the buffer has not the length that the call asks for",
        StoreFault::ListFull => "sixteen blocks wait; beat before the next write",
        StoreFault::CounterSpent => "the counters are spent; format anew under new keys",
    }
}
