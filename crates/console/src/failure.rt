use std::alloc::AllocError;
use std::io;
use thiserror::Error;

/// What can fail between a program and the system that it runs on. Paths are those that it was given.
#[derive(Clone, Copy, PartialEq, Eq, Debug, Error)]
pub enum Failure<'a> {
    // Made by name where a clause tells which failure came: the derived `From` has no clause.
    #[error("no memory is left")]
    Memory(#[from(alloc)] AllocError),
    #[error("cannot read an argument or print: {0}")]
    Io(io::ErrorKind),
    #[error("cannot read {0}: {1}")]
    Read(&'a str, io::ErrorKind),
    #[error("cannot write {0}: {1}")]
    Write(&'a str, io::ErrorKind),
}

impl From<io::Error> for Failure<'_> {
    fn from(error: io::Error) -> Self {
        Failure::Io(error.kind())
    }
}
