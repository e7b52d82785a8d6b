//! What can go wrong at the desk, and how a denial is told in words.
ghost use Rattle.std.specs.Prelude.{◌≡◌};
ghost use Rattle.denial.specs.Denials.{row_told};
ghost use Rattle.card.specs.Faults.{card_denial};
ghost use Rattle.seal.specs.Faults.{seal_denial};
ghost use Rattle.tape.specs.Faults.{tape_denial};
ghost use Rattle.ends.specs.Told.{denied_told};

use card::fault::CardFault;
use denial::{Fault, Row};
use layout::names::Place;
use seal::fault::SealFault;
use std::fmt;
use tape::fault::TapeFault;
use thiserror::Error;

/// A denial of one of the ends.
#[derive(Clone, Copy, Debug)]
pub(crate) enum Denied {
    Card(CardFault),
    Seal(SealFault),
    Tape(TapeFault),
}

impl Denied {
    /// The row of the table that the end's own fault tells.
    fn row(&self) -> Row
        ensures { row_told result ≡ denied_told self.now }
    {
        match self {
            Denied::Card(fault) => fault.row(),
            Denied::Seal(fault) => fault.row(),
            Denied::Tape(fault) => fault.row(),
        }
    }

    fn advice(&self) -> &'static str {
        match self {
            Denied::Tape(TapeFault::Spent) => "no word is left on the tape; load a new tape",
            Denied::Card(CardFault::Beyond(_)) => {
                "the card has no such place; give a place below its count"
            }
            Denied::Card(CardFault::Size) | Denied::Seal(SealFault::Size) => {
                "a length is wrong; hand in 64 bytes for a record and 52 for a body"
            }
            Denied::Seal(SealFault::Tag(_)) => {
                "this is not what was sealed for this place; take the record from a copy of the card"
            }
        }
    }
}

impl fmt::Display for Denied {
    fn fmt<W: fmt::Write>(&self, f: &mut fmt::Formatter<W>) -> fmt::Result {
        write!(f, "denied {}: {}", self.row(), self.advice())
    }
}

impl From<CardFault> for Denied {
    ghost from_gives = { λ f d. denied_told d ≡ card_denial f };

    fn from(fault: CardFault) -> Denied {
        Denied::Card(fault)
    }
}

impl From<SealFault> for Denied {
    ghost from_gives = { λ f d. denied_told d ≡ seal_denial f };

    fn from(fault: SealFault) -> Denied {
        Denied::Seal(fault)
    }
}

impl From<TapeFault> for Denied {
    ghost from_gives = { λ f d. denied_told d ≡ tape_denial f };

    fn from(fault: TapeFault) -> Denied {
        Denied::Tape(fault)
    }
}

/// Why the example stops.
#[derive(Clone, Copy, Debug, Error)]
pub(crate) enum Trouble {
    #[error("{0}")]
    Denied(Denied),
    /// What was opened at a place is not what was sealed there.
    #[error("place {0} opens to another booking")]
    Differs(Place),
    #[error("granted what must be denied")]
    Granted,
    #[error("the card has no place")]
    NoPlace,
    #[error("no booking was sealed")]
    NothingSealed,
}

impl<F: Into<Denied> + Drop> From<F> for Trouble {
    fn from(fault: F) -> Trouble {
        Trouble::Denied(fault.into())
    }
}
