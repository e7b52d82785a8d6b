ghost use Rattle.std.specs.Prelude.{◌≡◌};
ghost use Rattle.std.specs.Option.{option_map};
ghost use Rattle.runs.specs.Told.{file_in};

use answers::beat::Beat;
use answers::denials::Denial;
use layout::names::Block;

/// How a store is made.
#[derive(Clone, Copy)]
pub enum Making<'a> {
    /// Anew, with so many blocks.
    Format(u32),
    /// From a map file.
    Resume(&'a [u8]),
}

/// A call of a store; a buffer is given by its length, and begins as zeros.
#[derive(Clone, Copy)]
pub enum Call<'a> {
    Write(Block, &'a [u8]),
    Read(Block, usize),
    Beat,
    Save(usize),
    Face(usize),
}

/// What a granted call answered, with the caller's buffer after it.
#[derive(Drop)]
pub enum Granted {
    Written,
    Valued(Vec<u8>),
    Beaten(Beat),
    // The whole buffer beside the file's length: a call tells what the bytes behind the file hold.
    Saved(usize, Vec<u8>),
    Shown(Vec<u32>),
}

impl Granted {
    /// The map file that a save wrote: the front of its buffer.
    pub fn map_file(&self) -> Option<&[u8]>
        ensures { option_map (λ file. file.now) result ≡ file_in self.now }
    {
        match self {
            Granted::Saved(count, bytes) => bytes.as_slice().get(..(*count).min(bytes.len())),
            _ => None,
        }
    }
}

/// What a call answered; a denied call leaves the caller's buffer zeros.
pub type Answer = Result<Granted, Denial>;
