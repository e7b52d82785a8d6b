ghost use Rattle.std.specs.Prelude.{◌≡◌};
ghost use Rattle.card.specs.Kinds.{byte_records};
ghost use Rattle.seal.specs.Schemes.{rules_by, street_cover, street_tag};
ghost use Rattle.tape.specs.Keyed.{keyed_words};
ghost use Rattle.runs.specs.Told.{making_told};
ghost use Rattle.runs.specs.Carried.{CarriedOut};

use card::byte::ByteCard;
use engine::state::Ends;
use example::keys::Keys;
use runs::calls::{Call, Making};
use runs::run::run;
use runs::transcript::Ran;
use seal::seal::Seal;
use seal::street::StreetSeal;
use std::alloc::Global;
use tape::keyed::KeyedTape;

/// Makes a store under keys, on a card in lent bytes and with so many words of tape, and makes calls on it.
pub fn run_keyed<'a>(
    heap: Global,
    keys: &Keys,
    image: &'a mut [u8],
    words: u32,
    making: &Making<'_>,
    calls: &[Call<'_>],
) -> Ran<ByteCard<'a>, StreetSeal, KeyedTape>
    ensures run { CarriedOut (rules_by (street_cover keys.now.body) (street_tag keys.now.tag)) (byte_records image.old) (keyed_words keys.now.tape keys.now.nonce 0 words) (making_told making.now) calls.now result.store.store result.transcript }
    ensures seal { ⟦<StreetSeal as Seal>⟧.rules result.store.seal ≡ rules_by (street_cover keys.now.body) (street_tag keys.now.tag) }
{
    let ends = Ends {
        card: ByteCard::new(image),
        seal: keys.seal(),
        tape: keys.tape(words),
    };
    run(heap, ends, making, calls)
}
