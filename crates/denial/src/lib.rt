//! What a denial tells: its number, its layer and, for some, a place.
#![tactic(auto)]

ghost use Rattle.std.specs.Prelude.{◌≡◌, Some};
ghost use Rattle.std.specs.Option.{option_map};
ghost use Rattle.denial.specs.Denials.{Denial, layer_name, place_number, row_text, row_told};

use layout::names::Place;
use std::fmt;

/// The part of the system that denies.
#[derive(Clone, Copy, PartialEq, Eq, Debug)]
pub enum Layer {
    Store,
    Card,
    Seal,
    Tape,
}

impl fmt::Display for Layer {
    ghost output = { λ layer. Some (layer_name layer) };

    fn fmt<W: fmt::Write>(&self, f: &mut fmt::Formatter<W>) -> fmt::Result {
        f.write_str(match self {
            Layer::Store => "store",
            Layer::Card => "card",
            Layer::Seal => "seal",
            Layer::Tape => "tape",
        })
    }
}

/// A denial's row in the one table. The number is the table's, which people and scripts read; code tells denials
/// apart by the enums of the faults.
#[derive(Clone, Copy, PartialEq, Eq, Debug)]
pub struct Row {
    pub number: u32,
    pub layer: Layer,
    pub place: Option<Place>,
}

impl fmt::Display for Row {
    ghost output = { λ row. Some (row_text row) };

    fn fmt<W: fmt::Write>(&self, f: &mut fmt::Formatter<W>) -> fmt::Result {
        write!(f, "{} {}", self.number, self.layer)?;
        if let Some(place) = self.place {
            write!(f, " place {place}")?;
        }
        Ok(())
    }
}

/// A layer's own fault, which tells a denial of the one table.
pub trait Fault {
    ghost denial: { Self → Denial };

    fn number(&self) -> u32
        ensures { result ≡ (denial self.now).number };

    fn layer(&self) -> Layer
        ensures { result ≡ (denial self.now).layer };

    /// The place, where the denial names one.
    fn place(&self) -> Option<Place>
        ensures { option_map place_number result ≡ (denial self.now).place };

    fn row(&self) -> Row
        ensures { row_told result ≡ denial self.now }
    {
        Row {
            number: self.number(),
            layer: self.layer(),
            place: self.place(),
        }
    }
}

/// A fault whose row is written down whole, once; number, layer and place are its parts.
pub trait Tabled {
    ghost entry: { Self → Denial };

    fn table_row(&self) -> Row
        ensures { row_told result ≡ entry self.now };
}

impl<F: Tabled> Fault for F {
    ghost denial = { λ f. F.Tabled.entry f };

    fn number(&self) -> u32 {
        self.table_row().number
    }

    fn layer(&self) -> Layer {
        self.table_row().layer
    }

    fn place(&self) -> Option<Place> {
        self.table_row().place
    }

    fn row(&self) -> Row {
        self.table_row()
    }
}
