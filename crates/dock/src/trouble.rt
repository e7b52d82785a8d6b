//! Why the program fails, in words for a person.
use crate::misuse::Misuse;
use crate::wrong::Wrong;
use answers::denials::Denial;
use console::failure::Failure;
use layout::names::Block;
use lines::reason::Explained;
use std::alloc::{AllocError, AllocFailed};
use std::{fmt, io};
use thiserror::Error;

/// What a file is used for, which says how long it must be.
#[derive(Clone, Copy, Debug)]
pub(crate) enum FileUse {
    StreetKeys,
    TapeKeys,
    Words,
}

impl fmt::Display for FileUse {
    fn fmt<W: fmt::Write>(&self, f: &mut fmt::Formatter<W>) -> fmt::Result {
        f.write_str(match self {
            FileUse::StreetKeys => "48, a body key of 32 and a tag key of 16",
            FileUse::TapeKeys => "44, a key of 32 and a nonce of 12",
            FileUse::Words => "four bytes a word",
        })
    }
}

/// Why the program ends before its work is done. Paths and words are those of the command line, and lines those of the
/// script, by their numbers.
#[derive(Clone, Copy, Debug, Error)]
pub(crate) enum Trouble<'a> {
    #[error(transparent)]
    Failed(#[from] Failure<'a>),
    #[error("line {0}: {1} (the lines before it were carried out)")]
    Line(usize, Wrong),
    #[error("line {0}: cannot read its map file: {1} (the lines before it were carried out)")]
    LineRead(usize, io::ErrorKind),
    #[error("line {0}: cannot write its map file: {1} (the calls were carried out)")]
    LineWrite(usize, io::ErrorKind),
    /// A file has not as many bytes as its use asks for.
    #[error("{0} has {1} bytes; it must have {2}")]
    Length(&'a str, usize, FileUse),
    /// A word of the command line, and what is wrong with it.
    #[error("{0}: {1}; dock --help says more")]
    Argument(&'a str, Misuse),
    /// What is wrong with the command line as a whole.
    #[error("{0}; dock --help says more")]
    Usage(Misuse),
    /// A call of the two days was denied.
    #[error("{}", Explained(*.0))]
    Denied(#[from] Denial),
    /// A block of the two days holds another booking than its last.
    #[error("block {0} holds another booking")]
    OtherBooking(Block),
    #[error("the two days show different faces")]
    OtherFaces,
    #[error("the two days do not begin with one face")]
    BegunApart,
}

// One impl for all that a Failure is made of would overlap with that of a Denial, and a variant for each
// would say the texts of Failure again.
impl From<AllocError> for Trouble<'_> {
    fn from(error: AllocError) -> Self {
        Trouble::Failed(Failure::from(error))
    }
}

impl<T: Drop> From<AllocFailed<T>> for Trouble<'_> {
    fn from(refused: AllocFailed<T>) -> Self {
        Trouble::Failed(Failure::from(refused))
    }
}

impl From<io::Error> for Trouble<'_> {
    fn from(error: io::Error) -> Self {
        Trouble::Failed(Failure::from(error))
    }
}
