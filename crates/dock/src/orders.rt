//! A line of a script, read word by word.
use crate::wrong::{Thing, Wrong};
use layout::names::Block;
use std::alloc::Global;
use std::str::FromStr;

/// A read without a length takes a buffer for a whole value.
const VALUE_LEN: usize = 48;

/// A save without a length takes a buffer for the longest map file.
const MOST_FILE_LEN: usize = 2058;

/// The beats of one line are listed before they are made, so there is a limit.
const MOST_BEATS: u32 = 100_000;

/// How a line makes a store.
#[derive(Drop)]
pub(crate) enum MakingOrder {
    Format(u32),
    /// From the map file at a path.
    Resume(String),
}

impl MakingOrder {
    pub(crate) fn verb(&self) -> &'static str {
        match self {
            MakingOrder::Format(_) => "format",
            MakingOrder::Resume(_) => "resume",
        }
    }
}

/// The calls of one line.
#[derive(Drop)]
pub(crate) enum CallOrder {
    Write(Block, Vec<u8>),
    Read(Block, usize),
    Beats(u32),
    /// With the buffer's length, where the line gives one.
    Face(Option<usize>),
    /// With the path for the map file, where the line names one.
    Save(usize, Option<String>),
}

impl CallOrder {
    pub(crate) fn verb(&self) -> &'static str {
        match self {
            CallOrder::Write(_, _) => "write",
            CallOrder::Read(_, _) => "read",
            CallOrder::Beats(_) => "beat",
            CallOrder::Face(_) => "face",
            CallOrder::Save(_, _) => "save",
        }
    }

    /// How many calls the line makes.
    pub(crate) fn calls(&self) -> u32 {
        match self {
            CallOrder::Beats(count) => *count,
            _ => 1,
        }
    }
}

#[derive(Drop)]
pub(crate) enum Order {
    Making(MakingOrder),
    Call(CallOrder),
}

/// A word that has to be there.
fn given<'a>(word: Option<&'a str>, what: Thing) -> Result<&'a str, Wrong> {
    word.ok_or(Wrong::Missing(what))
}

fn number<N: FromStr>(word: Option<&str>, what: Thing) -> Result<N, Wrong>
where
    N::Err: Drop,
{
    let read = given(word, what)?.parse::<N>();
    read.map_err(|_| Wrong::NotNumber(what))
}

fn length(word: &str) -> Result<usize, Wrong> {
    number(Some(word), Thing::BufferLength)
}

fn value(heap: Global, word: Option<&str>) -> Result<Vec<u8>, Wrong> {
    match given(word, Thing::Value)? {
        "-" => Ok(Vec::new(heap)),
        // Looked at first, so that a word that is no hex takes no memory, however long it is.
        digits if !is_hex(digits) => Err(Wrong::NotHex),
        digits => Ok(hex::decode(heap, digits)?),
    }
}

fn is_hex(word: &str) -> bool {
    word.as_bytes()
        .iter()
        .all(|digit| digit.is_ascii_hexdigit())
}

fn beats(word: Option<&str>) -> Result<u32, Wrong> {
    if word.is_none() {
        return Ok(1);
    }
    match number::<u32>(word, Thing::BeatCount)? {
        0 => Err(Wrong::NoBeats),
        count if count > MOST_BEATS => Err(Wrong::ManyBeats),
        count => Ok(count),
    }
}

/// A lone word that is no number is the file, and the buffer is the default one.
fn save_order<'a>(
    heap: Global,
    first: Option<&'a str>,
    second: Option<&'a str>,
) -> Result<CallOrder, Wrong> {
    let (len, path) = match (first, second) {
        (None, _) => (MOST_FILE_LEN, None),
        (Some(word), None) => match length(word) {
            Ok(len) => (len, None),
            Err(_) => (MOST_FILE_LEN, first),
        },
        (Some(word), Some(_)) => (length(word)?, second),
    };
    match path {
        None => Ok(CallOrder::Save(len, None)),
        Some(path) => Ok(CallOrder::Save(len, Some(String::from_str(heap, path)?))),
    }
}

/// The calls that a line makes by its verb and at most two words behind it.
// No slice of words: to collect them allocates, and a remark could then fail for want of memory.
fn call_order<'a>(
    heap: Global,
    verb: &str,
    first: Option<&'a str>,
    second: Option<&'a str>,
) -> Result<CallOrder, Wrong> {
    match (verb, second) {
        ("write", _) => {
            let block = Block(number(first, Thing::Block)?);
            Ok(CallOrder::Write(block, value(heap, second)?))
        }
        ("read", _) => {
            let block = Block(number(first, Thing::Block)?);
            Ok(CallOrder::Read(block, second.map_or(Ok(VALUE_LEN), length)?))
        }
        ("beat" | "face", Some(_)) => Err(Wrong::WordsLeft),
        ("beat", None) => Ok(CallOrder::Beats(beats(first)?)),
        ("face", None) => Ok(CallOrder::Face(first.map(length).transpose()?)),
        ("save", _) => save_order(heap, first, second),
        _ => Err(Wrong::NoSuchCall),
    }
}

/// What a line orders; `None` for a blank line and for a remark.
pub(crate) fn order_of(heap: Global, line: &str) -> Result<Option<Order>, Wrong> {
    let mut words = line.split_whitespace();
    let Some(verb) = words.next() else {
        return Ok(None);
    };
    if verb.starts_with('#') {
        return Ok(None);
    }
    let first = words.next();
    let second = words.next();
    if words.next().is_some() {
        return Err(Wrong::WordsLeft);
    }
    let order = match (verb, second) {
        ("format" | "resume", Some(_)) => return Err(Wrong::WordsLeft),
        ("format", None) => Order::Making(MakingOrder::Format(number(first, Thing::BlockCount)?)),
        ("resume", None) => {
            let path = String::from_str(heap, given(first, Thing::MapFile)?)?;
            Order::Making(MakingOrder::Resume(path))
        }
        _ => Order::Call(call_order(heap, verb, first, second)?),
    };
    Ok(Some(order))
}
