//! Whole files. No clause can say which bytes a file gives or takes.
ghost use Rattle.std.specs.Prelude.{IfErr};
ghost use Rattle.console.specs.Failures.{CannotRead, CannotWrite};

use crate::failure::Failure;
use std::fs;
use std::rt::Files;

/// The bytes of a file.
pub fn read_file<'a, R: Files + AllocGlobal>(rt: &R, path: &'a str) -> Result<Vec<u8>, Failure<'a>>
    ensures { IfErr result (CannotRead path.now) }
{
    fs::read(rt, path).map_err(|error| Failure::Read(path, error.kind()))
}

/// Puts bytes in the place of a file; who looks sees the old file or the new one, never a part.
pub fn replace_file<'a, R: Files + AllocGlobal>(
    rt: &R,
    path: &'a str,
    bytes: &[u8],
) -> Result<(), Failure<'a>>
    ensures { IfErr result (CannotWrite path.now) }
{
    let beside = format!(in rt.alloc(); "{path}.new").map_err(|error| Failure::Memory(error))?;
    let beside = beside.as_str();
    let replaced = fs::write(rt, beside, bytes).and_then(|()| {
        fs::rename(rt, beside, path).inspect_err(|_| {
            let _ = fs::remove_file(rt, beside);
        })
    });
    replaced.map_err(|error| Failure::Write(path, error.kind()))
}
