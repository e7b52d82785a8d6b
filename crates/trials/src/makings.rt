use crate::trial::{try_making, try_out};
use crate::worked::CARD_LEN;
use layout::names::Block;
use runs::calls::{Call, Making};

/// 1,024 records of 64 bytes.
const MOST_LEN: usize = 65_536;

/// The first byte of the tag at place 2, behind two records and 56 bytes.
const TAG_AT_2: usize = 184;

/// What the worked run saves: block 0 at place 3, block 1 at place 2, the last counter 9.
const FILE: [u8; 18] = [2, 0, 4, 0, 2, 0, 9, 0, 0, 0, 0, 0, 1, 0, 3, 0, 2, 0];

/// That file with one byte altered.
fn file_with(at: usize, byte: u8) -> [u8; 18] {
    let mut file = FILE;
    if let Some(slot) = file.get_mut(at) {
        *slot = byte;
    }
    file
}

/// The smallest and largest counts of blocks and places.
pub(crate) fn sizes(rt: &HostRuntime) -> anyhow::Result<()> {
    println!(rt; "counts of blocks on a card of 1024 places, and of 1023:")?;
    let mut image = vec![in rt.alloc(); 0; MOST_LEN]?;
    let bytes = image.as_mut_slice();
    try_making(rt, bytes, Making::Format(512))?;
    try_making(rt, bytes, Making::Format(0))?;
    try_making(rt, bytes, Making::Format(513))?;
    let fewer = bytes.len() - 64;
    try_making(rt, &mut bytes[..fewer], Making::Format(512))
}

/// The card of the worked run with its own file, and with files that do not fit it.
pub(crate) fn other_files(rt: &HostRuntime, card: &[u8; CARD_LEN]) -> anyhow::Result<()> {
    println!(rt; "the card of the first trial with its map file, and with others:")?;
    let mut image = *card;
    let reads = [Call::Read(Block(0), 48), Call::Read(Block(1), 48)];
    try_out(rt, &mut image, &[], Making::Resume(&FILE), &reads)?;
    try_making(rt, &mut image, Making::Resume(&FILE[..9]))?;
    try_making(rt, &mut image, Making::Resume(&FILE[..17]))?;
    resume_with(rt, &mut image, 0, 0)?;
    resume_with(rt, &mut image, 2, 5)?;
    resume_with(rt, &mut image, 12, 0)?;
    resume_with(rt, &mut image, 12, 2)?;
    resume_with(rt, &mut image, 16, 3)?;
    resume_with(rt, &mut image, 16, 4)?;
    resume_with(rt, &mut image, 6, 8)
}

fn resume_with(
    rt: &HostRuntime,
    image: &mut [u8; CARD_LEN],
    at: usize,
    byte: u8,
) -> anyhow::Result<()> {
    let file = file_with(at, byte);
    try_making(rt, image, Making::Resume(&file))
}

/// A listed record that is damaged; a shut store answers every call alike.
pub(crate) fn damaged_card(rt: &HostRuntime, card: &[u8; CARD_LEN]) -> anyhow::Result<()> {
    println!(rt; "the card of the first trial with the tag at place 2 altered:")?;
    let mut image = *card;
    image[TAG_AT_2] ^= 1;
    let calls = [
        Call::Write(Block(9), &[1; 49]),
        Call::Read(Block(9), 0),
        Call::Beat,
        Call::Save(0),
        Call::Face(0),
    ];
    try_out(rt, &mut image, &[7], Making::Resume(&FILE), &calls)
}

/// The two places exchanged in the file, on the damaged card and on the sound one.
pub(crate) fn exchanged_places(rt: &HostRuntime, card: &[u8; CARD_LEN]) -> anyhow::Result<()> {
    println!(rt; "the places exchanged in the file, on that card and on the sound one:")?;
    let mut file = file_with(14, 2);
    file[16] = 3;
    let mut image = *card;
    image[TAG_AT_2] ^= 1;
    try_making(rt, &mut image, Making::Resume(&file))?;
    image[TAG_AT_2] ^= 1;
    try_making(rt, &mut image, Making::Resume(&file))
}
