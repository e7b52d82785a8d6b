ghost use Rattle.std.specs.Prelude.{IfErr};
ghost use Rattle.console.specs.Failures.{OfNoFile};

use crate::failure::Failure;
use std::env;
use std::rt::Env;

/// The words of the command line, without the program's name. No clause can say what they are.
pub fn read_words<R: Env + AllocGlobal>(rt: &R) -> Result<Vec<String>, Failure<'static>>
    ensures { IfErr result OfNoFile }
{
    let words = env::args(rt).map_err(|error| Failure::Io(error.kind()))?;
    words
        .skip(1)
        .collect(rt.alloc())
        .map_err(|error| Failure::Memory(error))
}
