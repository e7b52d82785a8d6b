use crate::trial::try_out;
use layout::names::Block;
use runs::calls::{Call, Making};

/// Four records of 64 bytes.
pub(crate) const CARD_LEN: usize = 256;

const WORDS: [u32; 5] = [5, 1, 6, 3, 2];

/// Two blocks on four places: writes, beats up to the spent tape, reads and the map file. Gives the card's bytes after it.
pub(crate) fn worked_run(rt: &HostRuntime) -> anyhow::Result<[u8; CARD_LEN]> {
    println!(rt; "two blocks on four places:")?;
    let mut image = [0; CARD_LEN];
    let calls = [
        Call::Write(Block(0), &[65, 66]),
        Call::Read(Block(0), 48),
        Call::Beat,
        Call::Write(Block(1), &[67]),
        Call::Beat,
        Call::Write(Block(0), &[68]),
        Call::Beat,
        Call::Beat,
        Call::Read(Block(0), 48),
        Call::Beat,
        Call::Beat,
        Call::Save(18),
    ];
    try_out(rt, &mut image, &WORDS, Making::Format(2), &calls)?;
    Ok(image)
}

/// The same faces come with no write at all.
pub(crate) fn worked_run_without_writes(rt: &HostRuntime) -> anyhow::Result<()> {
    println!(rt; "the same tape without a write:")?;
    let mut image = [0; CARD_LEN];
    try_out(rt, &mut image, &WORDS, Making::Format(2), &[Call::Beat; 5])
}
