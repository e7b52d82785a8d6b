//! Blocks and places, each a number of its own kind.
ghost use Rattle.std.specs.Prelude.{Some, decimal};

use std::fmt;

/// A block: one value of the store, by its number.
#[derive(Clone, Copy, PartialEq, Eq, PartialOrd, Ord, Debug)]
pub struct Block(pub u32);

/// A place: where one record lies on a card, by its number.
#[derive(Clone, Copy, PartialEq, Eq, PartialOrd, Ord, Debug)]
pub struct Place(pub u32);

impl fmt::Display for Block {
    ghost output = { λ block. Some (decimal block.0) };

    fn fmt<W: fmt::Write>(&self, f: &mut fmt::Formatter<W>) -> fmt::Result {
        self.0.fmt(f)
    }
}

impl fmt::Display for Place {
    ghost output = { λ place. Some (decimal place.0) };

    fn fmt<W: fmt::Write>(&self, f: &mut fmt::Formatter<W>) -> fmt::Result {
        self.0.fmt(f)
    }
}
