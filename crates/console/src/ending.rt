//! How a program ends.
ghost use Rattle.std.specs.Prelude.{◌≡◌, OnOk, OnErr};
ghost use Rattle.std.specs.Process.{exit_status};

use std::fmt;
use std::process::ExitCode;

/// What a program ends with. A failure is told on standard error, behind the program's name.
pub fn exit_code<E: fmt::Display + Drop>(
    rt: &impl Eprint,
    program: &str,
    done: Result<(), E>,
) -> ExitCode
    ensures ok { OnOk done (exit_status result ≡ 0) }
    ensures err { OnErr done (exit_status result ≡ 1) }
{
    match done {
        Ok(()) => ExitCode::SUCCESS,
        Err(error) => {
            // Where it cannot be told either, the status still says it.
            let _ = eprintln!(rt; "{program}: {error}");
            ExitCode::FAILURE
        }
    }
}
