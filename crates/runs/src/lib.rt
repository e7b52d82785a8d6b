//! Runs of a store: makings and calls as values, the transcript of what they show, and how two transcripts compare.
#![tactic(auto)]

mod bytes;
pub mod calls;
pub mod compare;
mod notes;
pub mod perform;
pub mod run;
pub mod transcript;
