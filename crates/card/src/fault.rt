ghost use Rattle.card.specs.Faults.{card_denial};

use denial::{Layer, Row, Tabled};
use layout::names::Place;

/// Why a card denies.
#[derive(Clone, Copy, PartialEq, Eq, Debug)]
pub enum CardFault {
    /// 15: the place that was given is not below the count.
    Beyond(Place),
    /// 16: the record handed in, or the buffer for one, is not 64 bytes.
    Size,
}

impl Tabled for CardFault {
    ghost entry = { card_denial };

    // The numbers are the table's, which people and scripts read.
    fn table_row(&self) -> Row {
        let (number, place) = match self {
            CardFault::Beyond(place) => (15, Some(*place)),
            CardFault::Size => (16, None),
        };
        Row {
            number,
            layer: Layer::Card,
            place,
        }
    }
}
