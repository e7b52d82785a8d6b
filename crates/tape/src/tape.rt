ghost use Rattle.std.specs.Prelude.{◌≡◌, ℕ, ◌^◌, ◌<◌, List, length, nat_lt};
ghost use Rattle.denial.specs.Denials.{told};
ghost use Rattle.tape.specs.Faults.{tape_denial};
ghost use Rattle.tape.specs.Tapes.{draw_of};

use crate::fault::TapeFault;

/// A tape: its meaning is the list of 32-bit words still to come.
pub trait Tape {
    ghost words: { Self → List ℕ };

    /// Whether a word is left, which changes nothing.
    fn more(&self) -> bool
        ensures { result ≡ nat_lt 0 (length (words self.now)) };

    /// Gives the first word and removes it.
    fn draw(&mut self) -> Result<u32, TapeFault>
        ensures { (told tape_denial result, words self.new) ≡ draw_of (words self.old) };
}
