//! What was asked, in a script's words.
use console::bytes::Hex;
use runs::calls::{Call, Making};
use std::fmt;

/// A call, with its value in hex or its buffer's length.
// A wrapper: its words are a script's or a person's, and its type another crate's.
#[derive(Clone, Copy)]
pub struct Asked<'a>(pub Call<'a>);

impl fmt::Display for Asked<'_> {
    fn fmt<W: fmt::Write>(&self, f: &mut fmt::Formatter<W>) -> fmt::Result {
        match self.0 {
            Call::Write(block, value) => write!(f, "write {block} {}", Hex(value)),
            Call::Read(block, length) => write!(f, "read {block} {length}"),
            Call::Beat => f.write_str("beat"),
            Call::Save(length) => write!(f, "save {length}"),
            Call::Face(length) => write!(f, "face {length}"),
        }
    }
}

/// A making, with its count of blocks or its map file in hex.
// A wrapper: its words are a script's or a person's, and its type another crate's.
#[derive(Clone, Copy)]
pub struct AskedMaking<'a>(pub Making<'a>);

impl fmt::Display for AskedMaking<'_> {
    fn fmt<W: fmt::Write>(&self, f: &mut fmt::Formatter<W>) -> fmt::Result {
        match self.0 {
            Making::Format(blocks) => write!(f, "format {blocks}"),
            Making::Resume(file) => write!(f, "resume {}", Hex(file)),
        }
    }
}
