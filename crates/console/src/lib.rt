//! What the programs share: the words of the command line, files, bytes as they are printed, and how a program ends.
#![tactic(auto)]

pub mod bytes;
pub mod ending;
pub mod failure;
pub mod files;
#[cfg(test)]
mod tests;
pub mod words;
