//! What a making does ahead of its store: the checks, the memory, and format's dummies.
#![tactic(auto)]

mod checks;
mod dummies;
mod entries;
pub mod prepare;
