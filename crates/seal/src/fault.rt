ghost use Rattle.seal.specs.Faults.{seal_denial};

use denial::{Layer, Row, Tabled};
use layout::names::Place;

/// Why a seal denies.
#[derive(Clone, Copy, PartialEq, Eq, Debug)]
pub enum SealFault {
    /// 16: a body is not 52 bytes, or a record not 64.
    Size,
    /// 17: the tag is not the one that the rule gives at this place.
    Tag(Place),
}

impl Tabled for SealFault {
    ghost entry = { seal_denial };

    // The numbers are the table's, which people and scripts read.
    fn table_row(&self) -> Row {
        let (number, place) = match self {
            SealFault::Size => (16, None),
            SealFault::Tag(place) => (17, Some(*place)),
        };
        Row {
            number,
            layer: Layer::Seal,
            place,
        }
    }
}
