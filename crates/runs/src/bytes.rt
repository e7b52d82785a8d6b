ghost use Rattle.std.specs.Prelude.{◌<◌};
ghost use Rattle.machine.specs.Runs.{OfBytes};
ghost use Rattle.runs.specs.Told.{making_told};
ghost use Rattle.std.specs.List.{AllByRecursion};

use crate::calls::Making;

/// A making's map file is of bytes, which the law of runs asks.
pub(crate) fn of_bytes(making: &Making)
    ensures { OfBytes (making_told making.now) }
{
    if let Making::Resume(file) = making {
        all_bytes(file);
    }
}

// A byte is known to fit where it is read; the loop does nothing else.
fn all_bytes(file: &[u8])
    ensures { AllByRecursion (λ b. b < 256) file.now }
{
    for byte in file {
        let _read = *byte;
    }
}
