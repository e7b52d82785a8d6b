ghost use Rattle.std.specs.Prelude.{◌≡◌};
ghost use Rattle.layout.specs.Layouts.{filled as filled_with_zeros};

use layout::names::Block;
use layout::values::filled;

/// A booking: the block that keeps it, and its text.
#[derive(Clone, Copy)]
pub struct Booking {
    pub block: Block,
    pub text: &'static str,
}

impl Booking {
    /// The value that keeps the booking: the text in front, zeros behind it.
    pub fn value(&self) -> [u8; 48]
        ensures { result ≡ filled_with_zeros self.now.text.now }
    {
        filled(self.text.as_bytes())
    }
}
