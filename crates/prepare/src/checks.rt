ghost use Rattle.std.specs.Prelude.{◌≡◌};
ghost use Rattle.denial.specs.Denials.{told};
ghost use Rattle.answers.specs.Told.{store_denial};
ghost use Rattle.machine.specs.Makings.{above};
ghost use Rattle.engine.specs.Steps.{by_reason};
ghost use Rattle.prepare.specs.Checks.{size_check, counter_check};

use answers::denials::Denial;
use answers::fault::StoreFault;
use card::card::Card;
use engine::records::clear_at;
use layout::names::Place;

/// 2 and 3: whether so many blocks go on a card of so many places.
pub(crate) fn check_sizes(blocks: u32, count: u32) -> Result<(), StoreFault>
    ensures { told store_denial result ≡ size_check blocks count }
{
    if blocks == 0 || blocks > 512 {
        return Err(StoreFault::BlockCount);
    }
    if count < 2 * blocks || count > 1024 {
        return Err(StoreFault::PlaceCount);
    }
    Ok(())
}

/// 5: whether every clear counter on the card is at most the file's last counter.
pub(crate) fn check_counters<C: Card>(card: &C, last: u32) -> Result<(), Denial>
    ensures { by_reason result ≡ counter_check (above last 0 (C.Card.records card.now)) }
{
    // A card tells how many places it has, and lends no places to go over.
    for i in 0..card.count() {
        if clear_at(card, Place(i))? > last {
            return Err(Denial::ByStore(StoreFault::CounterAbove(Place(i))));
        }
    }
    Ok(())
}
