//! Records of a card, read for what they hold.
ghost use Rattle.std.specs.Prelude.{◌≡◌};
ghost use Rattle.machine.specs.Machine.{opened_at};
ghost use Rattle.engine.specs.Steps.{by_reason, as_reason, clear_at};

use answers::denials::Denial;
use card::card::Card;
use layout::names::Place;
use layout::records::clear_counter;
use seal::seal::Seal;

// Card and seal without the tape, from which an opening may not draw.
/// The body to which the record at a place opens.
pub fn open_at<C: Card, S: Seal>(card: &C, seal: &S, place: Place) -> Result<[u8; 52], Denial>
    ensures { by_reason result ≡ as_reason (opened_at (S.Seal.rules seal.now) (C.Card.records card.now) place.0) }
{
    let mut bytes = [0; 64];
    card.get(place, &mut bytes)?;
    let mut body = [0; 52];
    let _ = seal.open(place, &bytes, &mut body)?;
    Ok(body)
}

/// The clear counter of the record at a place.
pub fn clear_at<C: Card>(card: &C, place: Place) -> Result<u32, Denial>
    ensures { by_reason result ≡ as_reason (clear_at (C.Card.records card.now) place.0) }
{
    let mut bytes = [0; 64];
    card.get(place, &mut bytes)?;
    Ok(clear_counter(&bytes))
}
