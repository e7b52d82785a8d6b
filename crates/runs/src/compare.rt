ghost use Rattle.std.specs.Prelude.{Decides};
ghost use Rattle.runs.specs.Shown.{begun_told};
ghost use Rattle.runs.specs.Compared.{OneBeginning, Compared};

use crate::transcript::{Begun, Transcript};

/// How two transcripts compare.
#[derive(Clone, Copy, PartialEq, Eq, Debug)]
pub enum Verdict {
    /// They do not begin with one face and one last counter, or one of them has no beginning.
    BegunApart,
    /// They begin alike and have equal faces, and so equal places.
    SameFaces,
    /// They begin alike and have other faces, and so other places.
    OtherFaces,
}

/// Whether two runs that begin alike show the same faces.
pub fn compare(one: &Transcript, other: &Transcript) -> Verdict
    ensures { Compared one.now other.now result }
{
    if !begun_alike(&one.notes.begun, &other.notes.begun) {
        return Verdict::BegunApart;
    }
    // No later face is looked at: by the law the places, one number a beat, decide the faces.
    if one.notes.places == other.notes.places {
        Verdict::SameFaces
    } else {
        Verdict::OtherFaces
    }
}

/// Whether two runs begin with one face and one last counter.
fn begun_alike(one: &Option<Begun>, other: &Option<Begun>) -> bool
    ensures { Decides result (OneBeginning (begun_told one.now) (begun_told other.now)) }
{
    match (one, other) {
        (Some(one), Some(other)) => one == other,
        _ => false,
    }
}
