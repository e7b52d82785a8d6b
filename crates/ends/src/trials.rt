//! What must be denied, tried once each.
use crate::desk::{Desk, Entry};
use crate::trouble::{Denied, Trouble};
use card::card::Card;
use layout::names::Place;
use seal::seal::Seal;
use std::fmt;
use tape::tape::Tape;

/// What is tried.
#[derive(Clone, Copy)]
pub(crate) enum Attempt {
    OpenDamaged,
    OpenElsewhere,
    OpenIntoFewBytes,
    ReadBeyond,
    ReadIntoFewBytes,
    DrawFromSpent,
}

impl fmt::Display for Attempt {
    fn fmt<W: fmt::Write>(&self, f: &mut fmt::Formatter<W>) -> fmt::Result {
        f.write_str(match self {
            Attempt::OpenDamaged => "one bit flipped",
            Attempt::OpenElsewhere => "opened at another place",
            Attempt::OpenIntoFewBytes => "opened into 51 bytes",
            Attempt::ReadBeyond => "read beyond the count",
            Attempt::ReadIntoFewBytes => "read into 63 bytes",
            Attempt::DrawFromSpent => "drawn from a spent tape",
        })
    }
}

/// An attempt, and how it was denied.
#[derive(Clone, Copy)]
pub(crate) struct Trial {
    pub attempt: Attempt,
    pub denied: Denied,
}

impl Attempt {
    fn denied<T: Drop, F: Into<Denied> + Drop>(
        self,
        answer: Result<T, F>,
    ) -> Result<Trial, Trouble> {
        match answer {
            Ok(_) => Err(Trouble::Granted),
            Err(fault) => Ok(Trial {
                attempt: self,
                denied: fault.into(),
            }),
        }
    }
}

/// Tries the record of one entry, the card that it lies on, and a tape that is spent.
pub(crate) fn denials<C: Card, S: Seal, T: Tape>(
    desk: &Desk<C, S>,
    tape: &mut T,
    entry: &Entry,
) -> Result<[Trial; 6], Trouble> {
    let at = entry.at;
    let elsewhere = Place(at.0 ^ 1);
    let beyond = Place(desk.card.count());
    let record = desk.record_at(at)?;
    let mut damaged = record;
    damaged[10] ^= 1;
    let mut body = [0; 52];
    let mut copy = [0; 64];
    Ok([
        Attempt::OpenDamaged.denied(desk.seal.open(at, &damaged, &mut body))?,
        Attempt::OpenElsewhere.denied(desk.seal.open(elsewhere, &record, &mut body))?,
        Attempt::OpenIntoFewBytes.denied(desk.seal.open(at, &record, &mut body[0..51]))?,
        Attempt::ReadBeyond.denied(desk.card.get(beyond, &mut copy))?,
        Attempt::ReadIntoFewBytes.denied(desk.card.get(at, &mut copy[0..63]))?,
        Attempt::DrawFromSpent.denied(tape.draw())?,
    ])
}
