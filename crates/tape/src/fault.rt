ghost use Rattle.tape.specs.Faults.{tape_denial};

use denial::{Layer, Row, Tabled};

/// Why a tape denies.
#[derive(Clone, Copy, PartialEq, Eq, Debug)]
pub enum TapeFault {
    /// 13: no word is left.
    Spent,
}

impl Tabled for TapeFault {
    ghost entry = { tape_denial };

    // The numbers are the table's, which people and scripts read.
    fn table_row(&self) -> Row {
        match self {
            TapeFault::Spent => Row {
                number: 13,
                layer: Layer::Tape,
                place: None,
            },
        }
    }
}
