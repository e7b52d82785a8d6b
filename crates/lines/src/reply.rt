//! What a call answered, in the fixed words of an answer line.
use answers::denials::Denial;
use console::bytes::Hex;
use runs::calls::{Answer, Granted};
use std::fmt;

/// What a making answered.
// A wrapper: its words are a script's or a person's, and its type another crate's.
#[derive(Clone, Copy)]
pub struct Made(pub Result<(), Denial>);

impl fmt::Display for Made {
    fn fmt<W: fmt::Write>(&self, f: &mut fmt::Formatter<W>) -> fmt::Result {
        match self.0 {
            Ok(()) => f.write_str("granted"),
            Err(denial) => write!(f, "{denial}"),
        }
    }
}

/// Numbers, a blank before each.
#[derive(Clone, Copy)]
pub struct Numbers<'a>(pub &'a [u32]);

impl fmt::Display for Numbers<'_> {
    fn fmt<W: fmt::Write>(&self, f: &mut fmt::Formatter<W>) -> fmt::Result {
        for number in self.0 {
            write!(f, " {number}")?;
        }
        Ok(())
    }
}

/// What a call answered, without the call's name.
// A wrapper: its words are a script's or a person's, and its type another crate's.
#[derive(Clone, Copy)]
pub struct Reply<'a>(pub &'a Answer);

impl fmt::Display for Reply<'_> {
    fn fmt<W: fmt::Write>(&self, f: &mut fmt::Formatter<W>) -> fmt::Result {
        match self.0 {
            Ok(Granted::Written) => f.write_str("granted"),
            Ok(Granted::Valued(bytes)) => write!(f, "granted {}", Hex(bytes.as_slice())),
            Ok(Granted::Beaten(beat)) => {
                write!(
                    f,
                    "granted place {} counter {} {}",
                    beat.place, beat.counter, beat.deed
                )
            }
            Ok(granted @ Granted::Saved(count, _)) => {
                write!(
                    f,
                    "granted {count} {}",
                    Hex(granted.map_file().unwrap_or(&[]))
                )
            }
            Ok(Granted::Shown(numbers)) => write!(f, "granted{}", Numbers(numbers.as_slice())),
            Err(denial) => write!(f, "{denial}"),
        }
    }
}
