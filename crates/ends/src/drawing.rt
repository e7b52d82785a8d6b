//! Places off a tape.
ghost use Rattle.std.specs.Prelude.{◌≡◌, ◌%◌, IfOk};

use crate::trouble::Trouble;
use layout::names::Place;
use tape::tape::Tape;

/// A word of the tape, and the place that it gives.
#[derive(Clone, Copy)]
pub(crate) struct Drawn {
    pub word: u32,
    pub at: Place,
}

/// Draws a place of a card with `count` places.
pub(crate) fn draw_place<T: Tape>(tape: &mut T, count: u32) -> Result<Drawn, Trouble>
    ensures { IfOk result (λ d. d.at.0 ≡ d.word % count) }
{
    if count == 0 {
        return Err(Trouble::NoPlace);
    }
    let word = tape.draw()?;
    Ok(Drawn {
        word,
        at: Place(word % count),
    })
}
