ghost use Rattle.std.specs.Prelude.{◌≡◌};

use crate::fault::TapeFault;
use crate::tape::Tape;

/// The word tape: lent words, from the first to the last.
#[derive(Clone, Copy)]
pub struct WordTape<'a> {
    rest: &'a [u32],
}

impl<'a> WordTape<'a> {
    /// A tape of all these words.
    pub fn new(words: &'a [u32]) -> WordTape<'a>
        ensures { result.rest.now ≡ words.now }
    {
        WordTape { rest: words }
    }
}

impl Tape for WordTape<'_> {
    ghost words = { λ t. t.rest.now };

    fn more(&self) -> bool {
        !self.rest.is_empty()
    }

    fn draw(&mut self) -> Result<u32, TapeFault> {
        let Some((word, rest)) = self.rest.split_first() else {
            return Err(TapeFault::Spent);
        };
        self.rest = rest;
        Ok(*word)
    }
}
