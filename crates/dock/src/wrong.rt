//! What can be wrong in a line of a script.
use hex::FromHexError;
use std::alloc::AllocError;
use std::fmt;
use thiserror::Error;

/// What a word of a line stands for.
#[derive(Clone, Copy, Debug)]
pub(crate) enum Thing {
    BlockCount,
    MapFile,
    Block,
    Value,
    BufferLength,
    BeatCount,
}

impl fmt::Display for Thing {
    fn fmt<W: fmt::Write>(&self, f: &mut fmt::Formatter<W>) -> fmt::Result {
        f.write_str(match self {
            Thing::BlockCount => "the count of blocks",
            Thing::MapFile => "the map file",
            Thing::Block => "the block",
            Thing::Value => "the value",
            Thing::BufferLength => "the buffer's length",
            Thing::BeatCount => "the count of beats",
        })
    }
}

#[derive(Clone, Copy, Debug, Error)]
pub(crate) enum Wrong {
    #[error("it is no UTF-8 text")]
    NoText,
    #[error("there is no such call; use format, resume, write, read, beat, face or save")]
    NoSuchCall,
    #[error("there is no store yet; put a line with format or resume before it")]
    NoMaking,
    #[error("{0} is missing")]
    Missing(Thing),
    #[error("{0} is no number that fits; use decimal digits")]
    NotNumber(Thing),
    #[error("no beats at all; leave the line out")]
    NoBeats,
    #[error("more than 100000 beats in one line; use several lines")]
    ManyBeats,
    #[error("a value is two hex digits a byte, of 0 to 9 and a to f, or - for an empty one")]
    NotHex,
    #[error("there are more words than the call takes")]
    WordsLeft,
    #[error("there is no memory for it")]
    Memory(#[from(alloc)] AllocError),
}

impl From<FromHexError> for Wrong {
    fn from(error: FromHexError) -> Wrong {
        match error {
            FromHexError::OutOfMemory => Wrong::Memory(AllocError),
            _ => Wrong::NotHex,
        }
    }
}
