//! Holds the cipher to published vectors, one a line of the input.
#![tactic(auto)]

mod published;

use anyhow::anyhow;
use published::Vector;
use std::io;

/// How many vectors of a kind were read, and how many agree.
#[derive(Clone, Copy, Default)]
struct Tally {
    agreeing: u64,
    read: u64,
}

impl Tally {
    fn count(&mut self, agrees: bool) {
        self.read = self.read.saturating_add(1);
        if agrees {
            self.agreeing = self.agreeing.saturating_add(1);
        }
    }

    fn is_whole(&self) -> bool {
        self.agreeing == self.read
    }
}

/// What was read so far, by kind.
#[derive(Clone, Copy, Default)]
struct Report {
    blocks: Tally,
    tags: Tally,
}

impl Report {
    fn count(&mut self, vector: &Vector, agrees: bool) {
        match vector {
            Vector::Block(_) => self.blocks.count(agrees),
            Vector::Tag(_) => self.tags.count(agrees),
        }
    }

    fn print(&self, rt: &HostRuntime) -> io::Result<()> {
        println!(rt;
            "ChaCha20 block: {} of {} agree",
            self.blocks.agreeing, self.blocks.read
        )?;
        println!(rt;
            "SipHash-2-4: {} of {} agree",
            self.tags.agreeing, self.tags.read
        )
    }

    fn outcome(&self) -> anyhow::Result<()> {
        if self.blocks.is_whole() && self.tags.is_whole() {
            Ok(())
        } else {
            Err(anyhow!("a published vector differs"))
        }
    }
}

fn run(rt: &HostRuntime) -> anyhow::Result<()> {
    let heap = rt.alloc();
    let text = io::read_to_string(heap, rt.stdin())?;
    let mut report = Report::default();
    for (line, number) in text.as_str().lines().zip(1usize..) {
        if line.is_empty() || line.starts_with('#') {
            continue;
        }
        let vector = match Vector::read(heap, line) {
            Ok(vector) => vector,
            Err(fault) => return Err(anyhow!(format!(in heap; "line {number}: {fault}")?)),
        };
        let agrees = vector.agrees();
        let name = vector.name();
        let verdict = if agrees { "agrees" } else { "DIFFERS" };
        println!(rt; "line {number}: {name} {verdict}")?;
        report.count(&vector, agrees);
    }
    report.print(rt)?;
    report.outcome()
}

fn main(rt: HostRuntime) -> anyhow::Result<()> {
    run(&rt)
}
