ghost use Rattle.std.specs.Prelude.{◌≡◌, true, is_ok};
ghost use Rattle.machine.specs.Makings.{dummies};

use answers::denials::Denial;
use card::card::Card;
use layout::body::Body;
use layout::names::Place;
use seal::seal::Seal;

/// Seals a dummy at each place, under the counters from 1 on.
pub(crate) fn seal_dummies<C: Card, S: Seal>(card: &mut C, seal: &S) -> Result<(), Denial>
    ensures granted { is_ok result ≡ true }
    ensures card { C.Card.records card.new ≡ dummies (S.Seal.rules seal.now) 0 (C.Card.records card.old) }
{
    let body = Body::dummy().to_bytes();
    let mut bytes = [0; 64];
    let count = card.count();
    // The counters rise with the places, so one number serves both.
    for i in 0..count {
        seal.seal(Place(i), i + 1, &body, &mut bytes)?;
        card.put(Place(i), &bytes)?;
    }
    Ok(())
}
