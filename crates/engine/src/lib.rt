//! An open store: the calls write, read, beat, save and face, each equal to a step of the machine.
#![tactic(auto)]

pub mod calls;
pub mod records;
pub mod state;
