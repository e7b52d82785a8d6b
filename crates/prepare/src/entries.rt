//! The entries of a map file, as resume takes them up.
ghost use Rattle.std.specs.Prelude.{◌≡◌, ℕ, ◌<◌, true, [], length, replicate, None, IfOk};
ghost use Rattle.machine.specs.Files.{file_blocks, entries};
ghost use Rattle.machine.specs.Machine.{opened_at};
ghost use Rattle.machine.specs.Makings.{entries_fit, settled, entry_opened, entries_open};
ghost use Rattle.engine.specs.Steps.{by_reason};
ghost use Rattle.prepare.specs.Checks.{entry_check, opening_check};

use answers::denials::Denial;
use answers::fault::StoreFault;
use card::card::Card;
use engine::records::open_at;
use layout::body::Body;
use layout::names::{Block, Place};
use mapfile::file::MapFile;
use seal::seal::Seal;
use tables::positions::table::PositionMap;

/// 4: puts the listed blocks, which rise, at the listed places of an empty map.
pub(crate) fn settle_entries(
    map: &mut PositionMap,
    file: &MapFile<'_>,
    count: u32,
) -> Result<(), StoreFault>
    requires { map.old ≡ replicate (file_blocks file.now.bytes.now) None }
    ensures fit { result ≡ entry_check (entries_fit (file_blocks file.now.bytes.now) count 0 [] (entries file.now.bytes.now)) }
    ensures places { IfOk result (λ _. map.new ≡ settled (replicate (file_blocks file.now.bytes.now) None) (entries file.now.bytes.now)) }
{
    let mut from = 0;
    for (block, place) in file.entries() {
        if block.0 < from || place.0 >= count {
            return Err(StoreFault::FileEntry);
        }
        // Not `map_err` and `?`: the goal at its closure stays open.
        if map.settle(block, place).is_err() {
            return Err(StoreFault::FileEntry);
        }
        from = block.0 + 1;
    }
    Ok(())
}

/// 6, then 7: whether a listed place opens, and to the listed block.
fn check_entry<C: Card, S: Seal>(
    card: &C,
    seal: &S,
    block: Block,
    place: Place,
) -> Result<(), Denial>
    requires { place.0 < length (C.Card.records card.now) }
    ensures { by_reason result ≡ opening_check (entry_opened block.0 place.0 (opened_at (S.Seal.rules seal.now) (C.Card.records card.now) place.0)) }
{
    match open_at(card, seal, place) {
        Ok(body) => {
            if Body::from_bytes(&body).block != block {
                return Err(Denial::ByStore(StoreFault::OtherBlock(place)));
            }
            Ok(())
        }
        Err(Denial::BySeal(fault)) => Err(Denial::ByStore(StoreFault::Unopened(place, fault))),
        Err(denial) => Err(denial),
    }
}

/// 6 and 7, entry by entry in file order.
pub(crate) fn check_entries<C: Card, S: Seal>(
    card: &C,
    seal: &S,
    file: &MapFile<'_>,
) -> Result<(), Denial>
    requires { entries_fit (file_blocks file.now.bytes.now) (length (C.Card.records card.now)) 0 [] (entries file.now.bytes.now) ≡ true }
    ensures { by_reason result ≡ opening_check (entries_open (S.Seal.rules seal.now) (C.Card.records card.now) (entries file.now.bytes.now)) }
{
    for (block, place) in file.entries() {
        check_entry(card, seal, block, place)?;
    }
    Ok(())
}
