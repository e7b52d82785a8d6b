//! The command line.
use crate::trouble::Trouble;

/// What the program is to do.
#[derive(Clone, Copy)]
pub(crate) enum Task<'a> {
    Help,
    /// Two copies of a card, the older first.
    Compare(&'a str, &'a str),
    /// The file that the picture goes to.
    Picture(&'a str),
}

/// Reads the command line; with no words there is the help.
pub(crate) fn task_of<'a>(words: &'a [String]) -> Result<Task<'a>, Trouble<'a>> {
    match words {
        [] => Ok(Task::Help),
        [one] => match one.as_str() {
            "--help" => Ok(Task::Help),
            "--picture" => Err(Trouble::NoPictureFile),
            word => Err(lone(word)),
        },
        [first, second] => match first.as_str() {
            "--help" => Ok(Task::Help),
            "--picture" => Ok(Task::Picture(second.as_str())),
            _ => Ok(Task::Compare(first.as_str(), second.as_str())),
        },
        [_, _, third, ..] => Err(Trouble::WordTooMany(third.as_str())),
    }
}

/// What is wrong with a word that stands alone.
fn lone<'a>(word: &'a str) -> Trouble<'a> {
    if word.starts_with("--") {
        Trouble::NoSuchOption(word)
    } else {
        Trouble::NoSecondCopy(word)
    }
}
