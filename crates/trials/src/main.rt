//! Trials: makings and calls at their limits, and each denial of the store, on cards in memory under the bench seal.
#![tactic(auto)]

mod calls;
mod makings;
mod trial;
mod worked;

use calls::{calls_denied, full_list, last_counter_spent};
use makings::{damaged_card, exchanged_places, other_files, sizes};
use worked::{worked_run, worked_run_without_writes};

fn main(rt: HostRuntime) -> anyhow::Result<()> {
    let card = worked_run(&rt)?;
    worked_run_without_writes(&rt)?;
    sizes(&rt)?;
    other_files(&rt, &card)?;
    damaged_card(&rt, &card)?;
    exchanged_places(&rt, &card)?;
    calls_denied(&rt)?;
    full_list(&rt)?;
    last_counter_spent(&rt)
}
