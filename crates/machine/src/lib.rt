//! The hiding machine and the law of its runs: definitions in specs/, proofs in proofs/.
#![tactic(auto)]

ghost use Rattle.machine.specs.Law.{Law};
ghost use Rattle.machine.specs.Worked.{Worked, WorkedIsARun};
ghost use Rattle.std.specs.Prelude.{◌≡◌};

/// The law of runs holds, the worked run is as it is written down, and it is one of the law's runs.
// A number, so that there is a body which a wrong version can turn.
pub fn law_stands() -> u8
    ensures zero { result ≡ 0 }
    ensures law { Law }
    ensures worked_run { Worked }
    ensures worked_run_is_a_run { WorkedIsARun }
{
    0
}
