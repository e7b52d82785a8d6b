//! A script carried out on card images.
use crate::ends::{Image, SealKeys, TapeWords};
use crate::options::Options;
use crate::orders::{CallOrder, MakingOrder};
use crate::script::{CallLine, Part, read_parts};
use crate::trouble::Trouble;
use card::card::Card;
use card::split::SplitCard;
use engine::state::Ends;
use lines::reply::{Made, Reply};
use runs::calls::{Answer, Call, Making};
use runs::perform::perform;
use runs::run::run;
use runs::transcript::Ran;
use seal::bench::BenchSeal;
use seal::seal::Seal;
use seal::street::StreetSeal;
use std::alloc::{AllocError, Global};
use std::fs;
use store::state::Store;
use tape::keyed::KeyedTape;
use tape::tape::Tape;
use tape::words::WordTape;

/// So many calls behind a making are one run; a longer script goes on call by call and tells how far it is.
const AT_ONCE: usize = 10_000;

/// Runs the script on standard input.
pub(crate) fn run_script<'a>(rt: &HostRuntime, options: Options<'a>) -> Result<(), Trouble<'a>> {
    let seal = SealKeys::read(rt, options.seal)?;
    let tape = TapeWords::read(rt, options.tape)?;
    let mut first = Image::read(rt, options.first)?;
    let mut parts = Vec::new(rt.alloc());
    let stop = read_parts(rt, &mut parts);
    match options.second {
        None => on_one(rt, &mut first, seal, &tape, parts.as_slice())?,
        Some(second) => {
            let mut second = Image::read(rt, second)?;
            on_two(rt, &mut first, &mut second, seal, &tape, parts.as_slice())?;
        }
    }
    stop?;
    Ok(())
}

// One function a number of images: a card of one image and a card of two are of different types.
/// The image is written back whether the parts went through or not.
fn on_one<'a>(
    rt: &HostRuntime,
    image: &mut Image<'a>,
    seal: SealKeys,
    tape: &TapeWords,
    parts: &[Part],
) -> Result<(), Trouble<'a>> {
    let done = on_card(rt, image.card(), seal, tape, parts);
    image.write_back(rt)?;
    done?;
    Ok(())
}

/// Both images are written back whether the parts went through or not.
fn on_two<'a>(
    rt: &HostRuntime,
    even: &mut Image<'a>,
    odd: &mut Image<'a>,
    seal: SealKeys,
    tape: &TapeWords,
    parts: &[Part],
) -> Result<(), Trouble<'a>> {
    let card = SplitCard::new(even.card(), odd.card());
    let done = on_card(rt, card, seal, tape, parts);
    let even_back = even.write_back(rt);
    odd.write_back(rt)?;
    even_back?;
    done?;
    Ok(())
}

// Card, seal and tape each get their type here and in `on_seal`, one after another; `Ends` holds them once all are known.
fn on_card<'a, C: Card + Drop>(
    rt: &HostRuntime,
    card: C,
    seal: SealKeys,
    tape: &TapeWords,
    parts: &[Part],
) -> Result<(), Trouble<'a>> {
    match seal {
        SealKeys::Bench => on_seal(rt, card, BenchSeal, tape, parts),
        SealKeys::Street(body, tag) => on_seal(rt, card, StreetSeal::new(body, tag), tape, parts),
    }
}

fn on_seal<'a, C: Card + Drop, S: Seal + Drop>(
    rt: &HostRuntime,
    card: C,
    seal: S,
    tape: &TapeWords,
    parts: &[Part],
) -> Result<(), Trouble<'a>> {
    match tape {
        TapeWords::Words(words) => {
            let tape = WordTape::new(words.as_slice());
            run_parts(rt, Ends { card, seal, tape }, parts)
        }
        TapeWords::Keyed(key, nonce, count) => {
            let tape = KeyedTape::new(*key, *nonce, *count);
            run_parts(rt, Ends { card, seal, tape }, parts)
        }
    }
}

fn run_parts<'a, C: Card + Drop, S: Seal + Drop, T: Tape + Drop>(
    rt: &HostRuntime,
    ends: Ends<C, S, T>,
    parts: &[Part],
) -> Result<(), Trouble<'a>> {
    let mut ends = ends;
    for part in parts {
        ends = run_part(rt, ends, part)?;
    }
    Ok(())
}

fn run_part<'a, C: Card + Drop, S: Seal + Drop, T: Tape + Drop>(
    rt: &HostRuntime,
    ends: Ends<C, S, T>,
    part: &Part,
) -> Result<Ends<C, S, T>, Trouble<'a>> {
    let heap = rt.alloc();
    let lines = part.calls.as_slice();
    // Calls apart from their lines, since `run` takes the calls alone.
    let calls = calls_of(heap, lines, ends.card.count())?;
    let file = map_file(rt, part)?;
    let making = match &part.making {
        MakingOrder::Format(blocks) => Making::Format(*blocks),
        MakingOrder::Resume(_) => Making::Resume(file.as_slice()),
    };
    let calls = calls.as_slice();
    let first = &calls[..calls.len().min(AT_ONCE)];
    let Ran {
        mut store,
        transcript,
    } = run(heap, ends, &making, first);
    let verb = part.making.verb();
    let made = Made(store.answer());
    println!(rt; "{verb}: {made}")?;
    let asked = lines.iter().flat_map(|line| line.asked());
    for (line, answer) in asked.zip(transcript?.notes.answers.iter()) {
        tell(rt, line, answer)?;
    }
    go_on(rt, &mut store, lines, calls)?;
    Ok(store.into_ends())
}

/// The bytes of the map file that a store is resumed from.
fn map_file(rt: &HostRuntime, part: &Part) -> Result<Vec<u8>, Trouble<'static>> {
    let MakingOrder::Resume(path) = &part.making else {
        return Ok(Vec::new(rt.alloc()));
    };
    fs::read(rt, path.as_str()).map_err(|error| Trouble::LineRead(part.line, error.kind()))
}

/// The calls of the lines, on a card of so many places.
fn calls_of<'a>(
    heap: Global,
    lines: &'a [CallLine],
    places: u32,
) -> Result<Vec<Call<'a>>, AllocError> {
    let counts = lines.iter().map(|line| line.order.calls() as usize);
    // All its memory at once: a list that grows as it is filled asks for more than it needs.
    let mut calls = Vec::with_capacity(heap, counts.fold(0, usize::saturating_add))?;
    let asked = lines.iter().flat_map(|line| line.asked());
    calls.extend(asked.map(|line| call_of(&line.order, places)))?;
    Ok(calls)
}

fn call_of<'a>(order: &'a CallOrder, places: u32) -> Call<'a> {
    match order {
        CallOrder::Write(block, value) => Call::Write(*block, value.as_slice()),
        CallOrder::Read(block, length) => Call::Read(*block, *length),
        CallOrder::Beats(_) => Call::Beat,
        CallOrder::Save(length, _) => Call::Save(*length),
        CallOrder::Face(Some(length)) => Call::Face(*length),
        CallOrder::Face(None) => Call::Face(places as usize),
    }
}

/// Makes the calls behind a run one by one, and tells on standard error how far it is.
fn go_on<C: Card, S: Seal, T: Tape>(
    rt: &HostRuntime,
    store: &mut Store<C, S, T>,
    lines: &[CallLine],
    calls: &[Call<'_>],
) -> Result<(), Trouble<'static>> {
    let asked = lines.iter().flat_map(|line| line.asked());
    let later = asked.zip(calls.iter()).skip(AT_ONCE);
    for ((line, call), made) in later.zip(1usize..) {
        let answer = perform(rt.alloc(), store, call)?;
        tell(rt, line, &answer)?;
        if made % AT_ONCE == 0 {
            eprintln!(rt; "dock: {made} calls made after the first {AT_ONCE}")?;
        }
    }
    Ok(())
}

/// Prints the line of an answer, and writes the map file if one was asked for.
fn tell(rt: &HostRuntime, line: &CallLine, answer: &Answer) -> Result<(), Trouble<'static>> {
    let verb = line.order.verb();
    let reply = Reply(answer);
    println!(rt; "{verb}: {reply}")?;
    let (CallOrder::Save(_, Some(path)), Ok(granted)) = (&line.order, answer) else {
        return Ok(());
    };
    let Some(file) = granted.map_file() else {
        return Ok(());
    };
    fs::write(rt, path.as_str(), file).map_err(|error| Trouble::LineWrite(line.line, error.kind()))
}
