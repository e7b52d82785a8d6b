//! What a day's answers come to.
use answers::beat::Deed;
use runs::calls::{Answer, Granted};
use std::io;

/// How often the calls did what.
#[derive(Clone, Copy, Default)]
pub(crate) struct Tally {
    pub writes: usize,
    pub landed: usize,
    pub again: usize,
    pub dummies: usize,
}

impl Tally {
    pub(crate) fn of(answers: &[Answer]) -> Tally {
        let mut tally = Tally::default();
        // One pass: four filters that count would go over the answers four times.
        for answer in answers {
            let count = match answer {
                Ok(Granted::Written) => &mut tally.writes,
                Ok(Granted::Beaten(beat)) => match beat.deed {
                    Deed::Landed(_) => &mut tally.landed,
                    Deed::SealedAgain(_) => &mut tally.again,
                    Deed::Dummy => &mut tally.dummies,
                },
                _ => continue,
            };
            *count = count.saturating_add(1);
        }
        tally
    }

    pub(crate) fn show(&self, rt: &HostRuntime) -> io::Result<()> {
        let Tally {
            writes,
            landed,
            again,
            dummies,
        } = *self;
        println!(rt;
            "  {writes} bookings written; by the beats {landed} landed, {again} sealed again, {dummies} dummies"
        )
    }
}
