use crate::trial::try_out;
use layout::names::Block;
use runs::calls::{Call, Making};

/// 34 records of 64 bytes, the fewest for 17 blocks.
const WIDE_LEN: usize = 2176;

/// Each denial of a call on an open store, in checking order.
pub(crate) fn calls_denied(rt: &HostRuntime) -> anyhow::Result<()> {
    println!(rt; "calls that are denied, the first reason that holds:")?;
    let mut image = [0; 256];
    let calls = [
        Call::Write(Block(2), &[1; 49]),
        Call::Write(Block(1), &[1; 49]),
        Call::Write(Block(1), &[1; 48]),
        Call::Read(Block(2), 47),
        Call::Read(Block(1), 47),
        Call::Read(Block(1), 48),
        Call::Save(9),
        Call::Beat,
        Call::Beat,
        Call::Save(13),
        Call::Save(14),
        Call::Face(3),
        Call::Face(4),
    ];
    try_out(rt, &mut image, &[0], Making::Format(2), &calls)
}

/// With sixteen waiting a seventeenth block is denied, and one that waits is granted.
pub(crate) fn full_list(rt: &HostRuntime) -> anyhow::Result<()> {
    println!(rt; "seventeen blocks of which sixteen wait:")?;
    let mut image = [0; WIDE_LEN];
    let mut calls = [Call::Beat; 20];
    for (block, call) in (0..).zip(calls.iter_mut().take(17)) {
        *call = Call::Write(Block(block), &[7]);
    }
    calls[17] = Call::Write(Block(15), &[8]);
    calls[19] = Call::Write(Block(16), &[9]);
    try_out(rt, &mut image, &[0], Making::Format(17), &calls)
}

/// A store whose last counter is the highest that there is.
pub(crate) fn last_counter_spent(rt: &HostRuntime) -> anyhow::Result<()> {
    println!(rt; "one beat before the counters are spent:")?;
    let mut image = [0; 128];
    let file = [1, 0, 2, 0, 0, 0, 254, 255, 255, 255];
    let calls = [Call::Beat, Call::Beat, Call::Face(2)];
    try_out(rt, &mut image, &[1, 1], Making::Resume(&file), &calls)
}
