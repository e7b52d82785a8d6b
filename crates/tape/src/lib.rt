//! Tapes: where the random words come from. One trait with its meaning, and the kinds of tape.
#![tactic(auto)]

pub mod fault;
pub mod keyed;
pub mod tape;
#[cfg(test)]
mod tests;
pub mod words;
