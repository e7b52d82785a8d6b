//! Bytes as they are printed: slices are of std, and so each way has a type of its own.
use std::fmt;

/// Bytes to be printed in hex, two digits a byte.
#[derive(Clone, Copy)]
pub struct Hex<'a>(pub &'a [u8]);

impl fmt::Display for Hex<'_> {
    fn fmt<W: fmt::Write>(&self, f: &mut fmt::Formatter<W>) -> fmt::Result {
        for byte in self.0 {
            write!(f, "{byte:02x}")?;
        }
        Ok(())
    }
}

/// The text of a value, which ends before the first zero.
#[derive(Clone, Copy)]
pub struct Text<'a>(pub &'a [u8]);

impl fmt::Display for Text<'_> {
    fn fmt<W: fmt::Write>(&self, f: &mut fmt::Formatter<W>) -> fmt::Result {
        for byte in self.0.iter().take_while(|byte| **byte != 0) {
            f.write_char(*byte as char)?;
        }
        Ok(())
    }
}
