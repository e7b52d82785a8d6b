//! Why the program fails, in words for a person.
use answers::denials::Denial;
use console::failure::Failure;
use lines::reason::Explained;
use std::alloc::{AllocError, AllocFailed};
use std::io;
use thiserror::Error;

/// Why the program ends before its work is done. Paths and words are those of the command line.
#[derive(Clone, Copy, Debug, Error)]
pub(crate) enum Trouble<'a> {
    #[error(transparent)]
    Failed(#[from] Failure<'a>),
    #[error("{0}: there is no such option; copier --help says more")]
    NoSuchOption(&'a str),
    /// One copy, with no other to compare it with.
    #[error("{0}: give a second copy to compare it with; copier --help says more")]
    NoSecondCopy(&'a str),
    #[error("--picture lacks the name of the file to draw in")]
    NoPictureFile,
    #[error("{0}: one word too many; copier --help says more")]
    WordTooMany(&'a str),
    /// A copy, and its bytes, which make no record.
    #[error("{0} has {1} bytes, which is not one record; a record has 64")]
    NoRecord(&'a str, usize),
    /// Two copies of other lengths.
    #[error("{0} has {1} bytes and {2} has {3}; two copies of one card are equally long")]
    Lengths(&'a str, usize, &'a str, usize),
    /// The store denied a day's making.
    #[error("{}", Explained(*.0))]
    Denied(#[from] Denial),
    #[error("the two days show different marks")]
    OtherFaces,
}

// One impl for all that a Failure is made of would overlap with that of a Denial, and a variant for each
// would say the texts of Failure again.
impl From<AllocError> for Trouble<'_> {
    fn from(error: AllocError) -> Self {
        Trouble::Failed(Failure::from(error))
    }
}

impl<T: Drop> From<AllocFailed<T>> for Trouble<'_> {
    fn from(refused: AllocFailed<T>) -> Self {
        Trouble::Failed(Failure::from(refused))
    }
}

impl From<io::Error> for Trouble<'_> {
    fn from(error: io::Error) -> Self {
        Trouble::Failed(Failure::from(error))
    }
}
