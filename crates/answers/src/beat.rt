ghost use Rattle.std.specs.Prelude.{◌≡◌, Some};
ghost use Rattle.machine.specs.Machine.{deed_number, deed_block};
ghost use Rattle.std.specs.Option.{option_map};
ghost use Rattle.answers.specs.Told.{block_number, deed_text, deed_told};

use layout::names::{Block, Place};
use std::fmt;

/// What a beat did at its place.
#[derive(Clone, Copy, PartialEq, Eq, Debug)]
pub enum Deed {
    /// Nothing waited: a dummy was sealed.
    Dummy,
    /// The first block in turn landed.
    Landed(Block),
    /// The block that has the place was sealed again.
    SealedAgain(Block),
}

impl Deed {
    /// The deed's number, as the documents give it: 0 dummy, 1 landed, 2 sealed again. Code matches on the deed.
    pub fn number(&self) -> u32
        ensures { result ≡ deed_number (deed_told self.now) }
    {
        match self {
            Deed::Dummy => 0,
            Deed::Landed(_) => 1,
            Deed::SealedAgain(_) => 2,
        }
    }

    /// The block that the deed is about.
    pub fn block(&self) -> Option<Block>
        ensures { option_map block_number result ≡ deed_block (deed_told self.now) }
    {
        match self {
            Deed::Dummy => None,
            Deed::Landed(block) => Some(*block),
            Deed::SealedAgain(block) => Some(*block),
        }
    }
}

impl fmt::Display for Deed {
    ghost output = { λ deed. Some (deed_text deed) };

    fn fmt<W: fmt::Write>(&self, f: &mut fmt::Formatter<W>) -> fmt::Result {
        match self {
            Deed::Dummy => f.write_str("dummy"),
            Deed::Landed(block) => write!(f, "landed {block}"),
            Deed::SealedAgain(block) => write!(f, "sealed-again {block}"),
        }
    }
}

/// A granted beat: the one place of the card that it wrote, the counter and the deed.
#[derive(Clone, Copy, PartialEq, Eq, Debug)]
pub struct Beat {
    pub place: Place,
    pub counter: u32,
    pub deed: Deed,
}
