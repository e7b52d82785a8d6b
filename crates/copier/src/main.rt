//! The copier: what two copies of a card tell, and a picture of what they tell of two days.
#![tactic(auto)]

mod changes;
mod days;
mod options;
mod picture;
mod strip;
mod trouble;
mod usage;

use changes::show_changes;
use console::ending::exit_code;
use console::words::read_words;
use days::draw_days;
use options::{Task, task_of};
use std::process::ExitCode;
use trouble::Trouble;
use usage::USAGE;

fn run<'a>(rt: &HostRuntime, words: &'a [String]) -> Result<(), Trouble<'a>> {
    match task_of(words)? {
        Task::Help => print!(rt; "{USAGE}")?,
        Task::Compare(old, new) => show_changes(rt, old, new)?,
        Task::Picture(path) => draw_days(rt, path)?,
    }
    Ok(())
}

// What goes wrong borrows the words, so that no function over both programs can name its type.
fn main(rt: HostRuntime) -> ExitCode {
    match read_words(&rt) {
        Ok(words) => exit_code(&rt, "copier", run(&rt, words.as_slice())),
        Err(failure) => exit_code(&rt, "copier", Err(failure)),
    }
}
