use card::byte::ByteCard;
use engine::state::Ends;
use lines::asked::{Asked, AskedMaking};
use lines::reply::{Made, Numbers, Reply};
use runs::calls::{Call, Making};
use runs::run::run;
use runs::transcript::{Ran, Transcript};
use seal::bench::BenchSeal;
use tape::words::WordTape;

/// Carries out a making and its calls on a card's bytes, and prints what was asked, answered and shown.
pub(crate) fn try_out(
    rt: &HostRuntime,
    image: &mut [u8],
    words: &[u32],
    making: Making<'_>,
    calls: &[Call<'_>],
) -> anyhow::Result<()> {
    let ends = Ends {
        card: ByteCard::new(image),
        seal: BenchSeal,
        tape: WordTape::new(words),
    };
    let Ran { store, transcript } = run(rt.alloc(), ends, &making, calls);
    let asked = AskedMaking(making);
    let made = Made(store.answer());
    drop(store);
    println!(rt; "  {asked}: {made}")?;
    show(rt, calls, &transcript?)
}

/// A making with no tape and no call behind it.
pub(crate) fn try_making(
    rt: &HostRuntime,
    image: &mut [u8],
    making: Making<'_>,
) -> anyhow::Result<()> {
    try_out(rt, image, &[], making, &[])
}

fn show(rt: &HostRuntime, calls: &[Call<'_>], transcript: &Transcript) -> anyhow::Result<()> {
    for (call, answer) in calls.iter().zip(transcript.notes.answers.iter()) {
        let asked = Asked(*call);
        let reply = Reply(answer);
        println!(rt; "  {asked}: {reply}")?;
    }
    for face in transcript.notes.faces.iter() {
        let numbers = Numbers(face.as_slice());
        println!(rt; "  face after a beat:{numbers}")?;
    }
    Ok(())
}
