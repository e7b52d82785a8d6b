//! The dock: a hiding store on card files, driven by a script or through two days of bookings.
#![tactic(auto)]

mod booked;
mod days;
mod demonstration;
mod ends;
mod files;
mod keys;
mod misuse;
mod options;
mod orders;
mod script;
mod scripted;
mod tally;
mod trouble;
mod usage;
mod wrong;

use console::ending::exit_code;
use console::words::read_words;
use days::run_days;
use demonstration::run_demonstration;
use options::{Task, task_of};
use scripted::run_script;
use std::process::ExitCode;
use trouble::Trouble;
use usage::USAGE;

fn run<'a>(rt: &HostRuntime, words: &'a [String]) -> Result<(), Trouble<'a>> {
    match task_of(words)? {
        Task::Demonstration => run_demonstration(rt)?,
        Task::Help => print!(rt; "{USAGE}")?,
        Task::Days(card, map) => run_days(rt, card, map)?,
        Task::Script(options) => run_script(rt, options)?,
    }
    Ok(())
}

// What goes wrong borrows the words, so that no function over both programs can name its type.
fn main(rt: HostRuntime) -> ExitCode {
    match read_words(&rt) {
        Ok(words) => exit_code(&rt, "dock", run(&rt, words.as_slice())),
        Err(failure) => exit_code(&rt, "dock", Err(failure)),
    }
}
