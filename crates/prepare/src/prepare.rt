ghost use Rattle.machine.specs.Makings.{format, resume};
ghost use Rattle.prepare.specs.Prepared.{Prepared};

use crate::checks::{check_counters, check_sizes};
use crate::dummies::seal_dummies;
use crate::entries::{check_entries, settle_entries};
use answers::denials::Denial;
use answers::fault::StoreFault;
use card::card::Card;
use engine::state::Memory;
use mapfile::file::MapFile;
use seal::seal::Seal;
use std::alloc::Global;
use tables::positions::table::PositionMap;
use tables::waiting::list::WaitingList;

// Card and seal without the tape, from which a making may not draw.
/// Checks the sizes, then takes the memory, and touches the card only then.
pub fn prepare_format<C: Card, S: Seal>(
    heap: Global,
    card: &mut C,
    seal: &S,
    blocks: u32,
) -> Result<Memory, Denial>
    ensures { Prepared (λ tape. format (S.Seal.rules seal.now) (C.Card.records card.old) tape blocks) (C.Card.records card.old) (C.Card.records card.new) result }
{
    let count = card.count();
    check_sizes(blocks, count)?;
    let map = PositionMap::new(heap, blocks)?;
    let waiting = WaitingList::new(heap)?;
    seal_dummies(card, seal)?;
    Ok(Memory {
        last: count,
        map,
        waiting,
    })
}

/// Checks the file's length and the sizes, takes the memory, then checks the entries and the card against them.
pub fn prepare_resume<C: Card, S: Seal>(
    heap: Global,
    card: &C,
    seal: &S,
    file: &[u8],
) -> Result<Memory, Denial>
    ensures { Prepared (λ tape. resume (S.Seal.rules seal.now) (C.Card.records card.now) tape file.now) (C.Card.records card.now) (C.Card.records card.now) result }
{
    let Some(file) = MapFile::parse(file) else {
        return Err(Denial::ByStore(StoreFault::FileLength));
    };
    let count = card.count();
    check_sizes(file.blocks(), count)?;
    if count != file.count() {
        return Err(Denial::ByStore(StoreFault::PlaceCount));
    }
    let mut map = PositionMap::new(heap, file.blocks())?;
    let waiting = WaitingList::new(heap)?;
    settle_entries(&mut map, &file, count)?;
    check_counters(card, file.last())?;
    check_entries(card, seal, &file)?;
    Ok(Memory {
        last: file.last(),
        map,
        waiting,
    })
}
