ghost use Rattle.std.specs.Prelude.{◌≡◌, Some};
ghost use Rattle.std.specs.Option.{option_map};
ghost use Rattle.denial.specs.Denials.{place_number, row_told};
ghost use Rattle.seal.specs.Faults.{seal_denial};
ghost use Rattle.answers.specs.declared.denials.Denial.TheVariants.{ByStore, ByCard, BySeal, ByTape, NoMemory};
ghost use Rattle.answers.specs.Told.{reason_of, reason_row, reason_number, reason_layer, reason_place, reason_cause, reason_text};

use crate::fault::StoreFault;
use card::fault::CardFault;
use denial::{Fault, Layer, Row};
use layout::names::Place;
use seal::fault::SealFault;
use std::alloc::AllocError;
use std::fmt;
use tape::fault::TapeFault;

/// Why a call is refused: a denial of some layer, unaltered on its way up, or want of memory at the making.
#[derive(Clone, Copy, PartialEq, Eq, Debug)]
pub enum Denial {
    ByStore(StoreFault),
    ByCard(CardFault),
    BySeal(SealFault),
    ByTape(TapeFault),
    NoMemory,
}

impl Denial {
    /// The denial's row in the table; want of memory has none.
    pub fn row(&self) -> Option<Row>
        ensures { option_map row_told result ≡ reason_row (reason_of self.now) }
    {
        match self {
            Denial::ByStore(fault) => Some(fault.row()),
            Denial::ByCard(fault) => Some(fault.row()),
            Denial::BySeal(fault) => Some(fault.row()),
            Denial::ByTape(fault) => Some(fault.row()),
            Denial::NoMemory => None,
        }
    }

    /// The denial's number; want of memory has none.
    pub fn number(&self) -> Option<u32>
        ensures { result ≡ reason_number (reason_of self.now) }
    {
        Some(self.row()?.number)
    }

    /// The layer that denies.
    pub fn layer(&self) -> Layer
        ensures { result ≡ reason_layer (reason_of self.now) }
    {
        match self.row() {
            Some(row) => row.layer,
            None => Layer::Store,
        }
    }

    /// The place, where the denial names one.
    pub fn place(&self) -> Option<Place>
        ensures { option_map place_number result ≡ reason_place (reason_of self.now) }
    {
        self.row()?.place
    }

    /// The seal's own denial, where this one holds it.
    pub fn cause(&self) -> Option<SealFault>
        ensures { option_map seal_denial result ≡ reason_cause (reason_of self.now) }
    {
        match self {
            Denial::ByStore(StoreFault::Unopened(_, fault)) => Some(*fault),
            _ => None,
        }
    }
}

impl fmt::Display for Denial {
    ghost output = { λ denial. Some (reason_text (reason_of denial)) };

    fn fmt<W: fmt::Write>(&self, f: &mut fmt::Formatter<W>) -> fmt::Result {
        let Some(row) = self.row() else {
            return f.write_str("denied no memory");
        };
        write!(f, "denied {row}")?;
        if let Some(cause) = self.cause() {
            write!(f, " ({})", cause.row())?;
        }
        Ok(())
    }
}

// By hand: the `From` of a derive has no clause, and contracts name the denial that a `?` makes.
impl From<StoreFault> for Denial {
    ghost from_gives = { λ f d. d ≡ ByStore f };

    fn from(fault: StoreFault) -> Denial {
        Denial::ByStore(fault)
    }
}

impl From<CardFault> for Denial {
    ghost from_gives = { λ f d. d ≡ ByCard f };

    fn from(fault: CardFault) -> Denial {
        Denial::ByCard(fault)
    }
}

impl From<SealFault> for Denial {
    ghost from_gives = { λ f d. d ≡ BySeal f };

    fn from(fault: SealFault) -> Denial {
        Denial::BySeal(fault)
    }
}

impl From<TapeFault> for Denial {
    ghost from_gives = { λ f d. d ≡ ByTape f };

    fn from(fault: TapeFault) -> Denial {
        Denial::ByTape(fault)
    }
}

impl From<AllocError> for Denial {
    ghost from_gives = { λ _ d. d ≡ NoMemory };

    fn from(_error: AllocError) -> Denial {
        Denial::NoMemory
    }
}
