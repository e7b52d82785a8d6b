//! The command line.
ghost use Rattle.std.specs.Prelude.{◌≤◌, length};
ghost use Rattle.std.specs.Slice.Iter.{iter_rest};

use crate::misuse::Misuse;
use crate::trouble::Trouble;
use std::slice::Iter;

/// A card file, and the window that is used of it.
#[derive(Clone, Copy)]
pub(crate) struct CardChoice<'a> {
    pub path: &'a str,
    pub start: u32,
    pub len: u32,
}

// An enum and no Option: the bench seal is a seal, and not the want of one.
#[derive(Clone, Copy)]
pub(crate) enum SealChoice<'a> {
    Bench,
    /// With the key file.
    Street(&'a str),
}

#[derive(Clone, Copy)]
pub(crate) enum TapeChoice<'a> {
    /// With the file of words.
    Words(&'a str),
    /// With the key file and the count of words.
    Keyed(&'a str, u32),
}

/// What a script is run on.
#[derive(Clone, Copy)]
pub(crate) struct Options<'a> {
    pub first: CardChoice<'a>,
    pub second: Option<CardChoice<'a>>,
    pub seal: SealChoice<'a>,
    pub tape: TapeChoice<'a>,
}

/// What the program is to do.
#[derive(Clone, Copy)]
pub(crate) enum Task<'a> {
    /// Two days in memory.
    Demonstration,
    Help,
    /// Two days on a card file that is made anew, and its map file.
    Days(&'a str, &'a str),
    Script(Options<'a>),
}

/// What was read of the command line so far.
#[derive(Clone, Copy, Default)]
struct Reading<'a> {
    help: bool,
    days: Option<(&'a str, &'a str)>,
    first: Option<CardChoice<'a>>,
    second: Option<CardChoice<'a>>,
    seal: Option<SealChoice<'a>>,
    tape: Option<TapeChoice<'a>>,
}

/// Reads the command line; with no words there is the demonstration.
pub(crate) fn task_of<'a>(words: &'a [String]) -> Result<Task<'a>, Trouble<'a>> {
    if words.is_empty() {
        return Ok(Task::Demonstration);
    }
    let mut reading = Reading::default();
    match reading.read(words) {
        Ok(()) => reading.task(),
        // The help wins over a word that is missing at the end.
        Err(Trouble::Usage(Misuse::WordMissing)) if reading.help => Ok(Task::Help),
        Err(trouble) => Err(trouble),
    }
}

/// The word behind an option.
fn behind<'a>(words: &mut Iter<'a, String>) -> Result<&'a str, Trouble<'a>>
    ensures no_more_are_left { length (iter_rest words.new) ≤ length (iter_rest words.old) }
{
    match words.next() {
        Some(word) => Ok(word.as_str()),
        None => Err(Trouble::Usage(Misuse::WordMissing)),
    }
}

/// The number behind an option.
fn number_behind<'a>(words: &mut Iter<'a, String>) -> Result<u32, Trouble<'a>>
    ensures no_more_are_left { length (iter_rest words.new) ≤ length (iter_rest words.old) }
{
    let word = behind(words)?;
    word.parse::<u32>()
        .map_err(|_| Trouble::Argument(word, Misuse::NotNumber))
}

/// Takes a choice that may be made once.
fn once<'a, T: Drop>(slot: &mut Option<T>, choice: T, again: Misuse) -> Result<(), Trouble<'a>> {
    match slot.replace(choice) {
        None => Ok(()),
        Some(_) => Err(Trouble::Usage(again)),
    }
}

impl<'a> Reading<'a> {
    /// Every option with the words behind it.
    fn read(&mut self, words: &'a [String]) -> Result<(), Trouble<'a>> {
        let mut words = words.iter();
        while let Some(option) = words.next() {
            match option.as_str() {
                "--help" => self.help = true,
                "--days" => {
                    let card = behind(&mut words)?;
                    self.days = Some((card, behind(&mut words)?));
                }
                "--card" => self.card(behind(&mut words)?)?,
                "--window" => {
                    let start = number_behind(&mut words)?;
                    self.window(start, number_behind(&mut words)?)?;
                }
                "--bench" => once(&mut self.seal, SealChoice::Bench, Misuse::TwoSeals)?,
                "--street" => {
                    let choice = SealChoice::Street(behind(&mut words)?);
                    once(&mut self.seal, choice, Misuse::TwoSeals)?;
                }
                "--words" => {
                    let choice = TapeChoice::Words(behind(&mut words)?);
                    once(&mut self.tape, choice, Misuse::TwoTapes)?;
                }
                "--keyed" => {
                    let path = behind(&mut words)?;
                    let choice = TapeChoice::Keyed(path, number_behind(&mut words)?);
                    once(&mut self.tape, choice, Misuse::TwoTapes)?;
                }
                word => return Err(Trouble::Argument(word, Misuse::NoSuchOption)),
            }
        }
        Ok(())
    }

    fn card(&mut self, path: &'a str) -> Result<(), Trouble<'a>> {
        let whole = CardChoice {
            path,
            start: 0,
            len: u32::MAX,
        };
        match (self.first, self.second) {
            (None, _) => self.first = Some(whole),
            (Some(first), None) => {
                if first.path == path {
                    return Err(Trouble::Argument(path, Misuse::SameCard));
                }
                self.second = Some(whole);
            }
            (Some(_), Some(_)) => return Err(Trouble::Argument(path, Misuse::ThirdCard)),
        }
        Ok(())
    }

    /// A window over the card that was given last.
    fn window(&mut self, start: u32, len: u32) -> Result<(), Trouble<'a>> {
        let Some(card) = self.second.as_mut().or(self.first.as_mut()) else {
            return Err(Trouble::Usage(Misuse::WindowFirst));
        };
        card.start = start;
        card.len = len;
        Ok(())
    }

    /// What all the words ask for.
    fn task(self) -> Result<Task<'a>, Trouble<'a>> {
        if self.help {
            return Ok(Task::Help);
        }
        if let Some((card, map)) = self.days {
            return Ok(Task::Days(card, map));
        }
        Ok(Task::Script(Options {
            first: self.first.ok_or(Trouble::Usage(Misuse::NoCard))?,
            second: self.second,
            seal: self.seal.ok_or(Trouble::Usage(Misuse::NoSeal))?,
            tape: self.tape.ok_or(Trouble::Usage(Misuse::NoTape))?,
        }))
    }
}
